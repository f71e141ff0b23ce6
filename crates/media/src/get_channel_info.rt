// The types of the Rust's get_channel_info.rs: IPMI 2.0, Tables 6-2, 6-3 and 22-29. `text` is its Display.
// Each has a table of its own, so nothing is generic.
ghost use Rattle.std.specs.Prelude.{◌≡◌};
ghost use Rattle.media.specs.Media.{medium_field, medium_of, medium_text, medium_value, protocol_field, protocol_of, protocol_text, protocol_value, session_field, session_of, session_text, session_value};
ghost use Rattle.base.specs.Outcome.{accepted};
ghost use Rattle.base.specs.Refusal.{said};
ghost use Rattle.base.specs.Written.{Writes};

use base::field::within;
use base::refusal::Refusal;
use base::text::coded;
use base::written::place;

// IPMI 2.0, Table 6-3.
#[derive(Clone, Copy)]
pub enum ChannelMediumType {
    Reserved,
    Ipmb,
    IcmbV1_0,
    IcmbV0_9,
    Lan802_3,
    AsynchSerialModem,
    OtherLan,
    PciSmbus,
    SmbusV1_0,
    SmbusV2_0,
    Usb1X,
    Usb2X,
    SystemInterface,
    Oem(u8),
    ReservedValue(u8),
}

impl From<u8> for ChannelMediumType {
    ghost from_gives = { λ value medium. medium ≡ medium_of value };

    fn from(value: u8) -> Self {
        match value {
            0 => ChannelMediumType::Reserved,
            1 => ChannelMediumType::Ipmb,
            2 => ChannelMediumType::IcmbV1_0,
            3 => ChannelMediumType::IcmbV0_9,
            4 => ChannelMediumType::Lan802_3,
            5 => ChannelMediumType::AsynchSerialModem,
            6 => ChannelMediumType::OtherLan,
            7 => ChannelMediumType::PciSmbus,
            8 => ChannelMediumType::SmbusV1_0,
            9 => ChannelMediumType::SmbusV2_0,
            10 => ChannelMediumType::Usb1X,
            11 => ChannelMediumType::Usb2X,
            12 => ChannelMediumType::SystemInterface,
            0x60..=0x7F => ChannelMediumType::Oem(value),
            _ => ChannelMediumType::ReservedValue(value),
        }
    }
}

impl From<ChannelMediumType> for u8 {
    ghost from_gives = { λ medium value. value ≡ medium_value medium };

    fn from(medium: ChannelMediumType) -> u8 {
        match medium {
            ChannelMediumType::Reserved => 0,
            ChannelMediumType::Ipmb => 1,
            ChannelMediumType::IcmbV1_0 => 2,
            ChannelMediumType::IcmbV0_9 => 3,
            ChannelMediumType::Lan802_3 => 4,
            ChannelMediumType::AsynchSerialModem => 5,
            ChannelMediumType::OtherLan => 6,
            ChannelMediumType::PciSmbus => 7,
            ChannelMediumType::SmbusV1_0 => 8,
            ChannelMediumType::SmbusV2_0 => 9,
            ChannelMediumType::Usb1X => 10,
            ChannelMediumType::Usb2X => 11,
            ChannelMediumType::SystemInterface => 12,
            ChannelMediumType::Oem(value) => value,
            ChannelMediumType::ReservedValue(value) => value,
        }
    }
}

impl ChannelMediumType {
    // Its number in a message.
    pub fn field(self) -> Result<u8, Refusal>
        ensures { said result ≡ medium_field self }
    {
        match self {
            ChannelMediumType::Oem(value) => within(value, 0x60, 0x7F),
            ChannelMediumType::ReservedValue(value) => within(value, 0x0D, 0x5F),
            _ => Ok(self.into()),
        }
    }

    // A writer and no Display: C lends the memory, which has all of the text or none of it.
    pub fn text(self, out: &mut [u8]) -> Result<usize, Refusal>
        ensures { Writes (accepted (medium_text self)) result out.old out.new }
    {
        match self {
            ChannelMediumType::Reserved => place(b"Reserved", out),
            ChannelMediumType::Ipmb => place(b"IPMB (I2C)", out),
            ChannelMediumType::IcmbV1_0 => place(b"ICMB v1.0", out),
            ChannelMediumType::IcmbV0_9 => place(b"ICMB v0.9", out),
            ChannelMediumType::Lan802_3 => place(b"802.3 LAN", out),
            ChannelMediumType::AsynchSerialModem => place(b"Asynchronous Serial/Modem", out),
            ChannelMediumType::OtherLan => place(b"Other LAN", out),
            ChannelMediumType::PciSmbus => place(b"PCI SMBus", out),
            ChannelMediumType::SmbusV1_0 => place(b"SMBus v1.0/1.1", out),
            ChannelMediumType::SmbusV2_0 => place(b"SMBus v2.0", out),
            ChannelMediumType::Usb1X => place(b"USB 1.x (reserved)", out),
            ChannelMediumType::Usb2X => place(b"USB 2.x (reserved)", out),
            ChannelMediumType::SystemInterface => place(b"System Interface", out),
            ChannelMediumType::Oem(value) => coded(b"OEM", value, out),
            ChannelMediumType::ReservedValue(value) => coded(b"Reserved", value, out),
        }
    }
}

// IPMI 2.0, Table 6-2.
#[derive(Clone, Copy)]
pub enum ChannelProtocolType {
    Reserved,
    IpmbV1_0,
    IcmbV1_0,
    IpmiSmbus,
    Kcs,
    Smic,
    Bt10,
    Bt15,
    TerminalMode,
    Oem(u8),
    ReservedValue(u8),
}

impl From<u8> for ChannelProtocolType {
    ghost from_gives = { λ value protocol. protocol ≡ protocol_of value };

    fn from(value: u8) -> Self {
        match value {
            0 => ChannelProtocolType::Reserved,
            1 => ChannelProtocolType::IpmbV1_0,
            2 => ChannelProtocolType::IcmbV1_0,
            3 => ChannelProtocolType::ReservedValue(3),
            4 => ChannelProtocolType::IpmiSmbus,
            5 => ChannelProtocolType::Kcs,
            6 => ChannelProtocolType::Smic,
            7 => ChannelProtocolType::Bt10,
            8 => ChannelProtocolType::Bt15,
            9 => ChannelProtocolType::TerminalMode,
            0x1C..=0x1F => ChannelProtocolType::Oem(value),
            _ => ChannelProtocolType::ReservedValue(value),
        }
    }
}

impl From<ChannelProtocolType> for u8 {
    ghost from_gives = { λ protocol value. value ≡ protocol_value protocol };

    fn from(protocol: ChannelProtocolType) -> u8 {
        match protocol {
            ChannelProtocolType::Reserved => 0,
            ChannelProtocolType::IpmbV1_0 => 1,
            ChannelProtocolType::IcmbV1_0 => 2,
            ChannelProtocolType::IpmiSmbus => 4,
            ChannelProtocolType::Kcs => 5,
            ChannelProtocolType::Smic => 6,
            ChannelProtocolType::Bt10 => 7,
            ChannelProtocolType::Bt15 => 8,
            ChannelProtocolType::TerminalMode => 9,
            ChannelProtocolType::Oem(value) => value,
            ChannelProtocolType::ReservedValue(value) => value,
        }
    }
}

impl ChannelProtocolType {
    // Its number in a message.
    pub fn field(self) -> Result<u8, Refusal>
        ensures { said result ≡ protocol_field self }
    {
        match self {
            ChannelProtocolType::Oem(value) => within(value, 0x1C, 0x1F),
            ChannelProtocolType::ReservedValue(value) => match value {
                3 => Ok(3),
                _ => within(value, 0x0A, 0x1B),
            },
            _ => Ok(self.into()),
        }
    }

    // A writer and no Display: C lends the memory, which has all of the text or none of it.
    pub fn text(self, out: &mut [u8]) -> Result<usize, Refusal>
        ensures { Writes (accepted (protocol_text self)) result out.old out.new }
    {
        match self {
            ChannelProtocolType::Reserved => place(b"Reserved", out),
            ChannelProtocolType::IpmbV1_0 => place(b"IPMB-1.0", out),
            ChannelProtocolType::IcmbV1_0 => place(b"ICMB-1.0", out),
            ChannelProtocolType::IpmiSmbus => place(b"IPMI-SMBus", out),
            ChannelProtocolType::Kcs => place(b"KCS", out),
            ChannelProtocolType::Smic => place(b"SMIC", out),
            ChannelProtocolType::Bt10 => place(b"BT-10", out),
            ChannelProtocolType::Bt15 => place(b"BT-15", out),
            ChannelProtocolType::TerminalMode => place(b"Terminal Mode", out),
            ChannelProtocolType::Oem(value) => coded(b"OEM", value, out),
            ChannelProtocolType::ReservedValue(value) => coded(b"Reserved", value, out),
        }
    }
}

// IPMI 2.0, Table 22-29, byte 3.
#[derive(Clone, Copy)]
pub enum ChannelSessionSupport {
    Sessionless,
    SingleSession,
    MultiSession,
    SessionBased,
    Reserved(u8),
}

impl From<u8> for ChannelSessionSupport {
    ghost from_gives = { λ value session. session ≡ session_of value };

    fn from(value: u8) -> Self {
        match value {
            0 => ChannelSessionSupport::Sessionless,
            1 => ChannelSessionSupport::SingleSession,
            2 => ChannelSessionSupport::MultiSession,
            3 => ChannelSessionSupport::SessionBased,
            _ => ChannelSessionSupport::Reserved(value),
        }
    }
}

impl From<ChannelSessionSupport> for u8 {
    ghost from_gives = { λ session value. value ≡ session_value session };

    fn from(session: ChannelSessionSupport) -> u8 {
        match session {
            ChannelSessionSupport::Sessionless => 0,
            ChannelSessionSupport::SingleSession => 1,
            ChannelSessionSupport::MultiSession => 2,
            ChannelSessionSupport::SessionBased => 3,
            ChannelSessionSupport::Reserved(value) => value,
        }
    }
}

impl ChannelSessionSupport {
    // Its number in a message.
    pub fn field(self) -> Result<u8, Refusal>
        ensures { said result ≡ session_field self }
    {
        match self {
            ChannelSessionSupport::Reserved(_) => Err(Refusal::NoForm),
            _ => Ok(self.into()),
        }
    }

    // A writer and no Display: C lends the memory, which has all of the text or none of it.
    pub fn text(self, out: &mut [u8]) -> Result<usize, Refusal>
        ensures { Writes (accepted (session_text self)) result out.old out.new }
    {
        match self {
            ChannelSessionSupport::Sessionless => place(b"Session-less", out),
            ChannelSessionSupport::SingleSession => place(b"Single-session", out),
            ChannelSessionSupport::MultiSession => place(b"Multi-session", out),
            ChannelSessionSupport::SessionBased => place(b"Session-based", out),
            ChannelSessionSupport::Reserved(value) => coded(b"Reserved", value, out),
        }
    }
}
