// Get Channel Access, App 41h: IPMI 2.0, Table 22-28; the Rust's get_channel_access.rs. `text` is its Display.
ghost use Rattle.std.specs.Prelude.{◌≡◌};
ghost use Rattle.access.specs.GetChannelAccess.{access_bytes, access_of, command, command_bytes, command_for, command_of, is_disabled, limit_field, limit_of, limit_text, limit_value, mode_field, mode_of, mode_text, mode_value, type_byte};
ghost use Rattle.base.specs.Outcome.{accepted};
ghost use Rattle.base.specs.Refusal.{said};
ghost use Rattle.base.specs.Written.{Writes};

use base::connection::Channel;
use base::field::{bits, flag, within};
use base::refusal::Refusal;
use base::text::coded;
use base::written::place;

#[derive(Clone, Copy)]
pub enum ChannelAccessType {
    NonVolatile,
    Volatile,
}

impl ChannelAccessType {
    // What stands for it in a request; the type has no number.
    pub fn byte(self) -> u8
        ensures { result ≡ type_byte self }
    {
        match self {
            ChannelAccessType::NonVolatile => 0x40,
            ChannelAccessType::Volatile => 0x80,
        }
    }
}

#[derive(Drop)]
pub struct GetChannelAccess {
    pub channel: Channel,
    pub access_type: ChannelAccessType,
}

impl GetChannelAccess {
    pub const COMMAND: u8 = 0x41;

    pub fn new(channel: Channel, access_type: ChannelAccessType) -> Self
        ensures { result ≡ command channel access_type }
    {
        Self {
            channel,
            access_type,
        }
    }

    pub fn non_volatile(channel: Channel) -> Self
        ensures { result ≡ command channel ChannelAccessType.NonVolatile }
    {
        Self::new(channel, ChannelAccessType::NonVolatile)
    }

    pub fn volatile(channel: Channel) -> Self
        ensures { result ≡ command channel ChannelAccessType.Volatile }
    {
        Self::new(channel, ChannelAccessType::Volatile)
    }

    // For a channel that is given as a number.
    pub fn numbered(number: u8, access_type: ChannelAccessType) -> Result<Self, Refusal>
        ensures { said result ≡ command_for number access_type }
    {
        Ok(Self::new(Channel::new(number)?, access_type))
    }

    // The request's data.
    pub fn write(self, out: &mut [u8]) -> Result<usize, Refusal>
        ensures { Writes (command_bytes self) result out.old out.new }
    {
        place(&[self.channel.field()?, self.access_type.byte()], out)
    }

    // The command whose request this is: takes only what some command writes.
    pub fn read(request: &[u8]) -> Result<Self, Refusal>
        ensures { said result ≡ command_of request.now }
    {
        let [number, kind] = *request else {
            return Err(Refusal::NotARequest);
        };
        let Ok(channel) = Channel::new(number) else {
            return Err(Refusal::NotARequest);
        };
        match kind {
            0x40 => Ok(Self::non_volatile(channel)),
            0x80 => Ok(Self::volatile(channel)),
            _ => Err(Refusal::NotARequest),
        }
    }
}

#[derive(Clone, Copy)]
pub struct ChannelAccess {
    pub access_mode: ChannelAccessMode,
    pub alerting_disabled: bool,
    pub per_msg_auth_disabled: bool,
    pub user_level_auth_disabled: bool,
    pub privilege_level_limit: ChannelPrivilegeLevel,
}

impl ChannelAccess {
    // Bits 5, 4 and 3 say what is DISABLED.
    pub fn parse(response: &[u8]) -> Result<Self, Refusal>
        ensures { said result ≡ access_of response.now }
    {
        let [first, second, ..] = *response else {
            return Err(Refusal::NotEnoughData);
        };
        Ok(ChannelAccess {
            access_mode: ChannelAccessMode::from(bits(first, 0, 3)),
            alerting_disabled: flag(first, 5),
            per_msg_auth_disabled: flag(first, 4),
            user_level_auth_disabled: flag(first, 3),
            privilege_level_limit: ChannelPrivilegeLevel::from(bits(second, 0, 4)),
        })
    }

    pub fn is_disabled(self) -> bool
        ensures { result ≡ is_disabled self.access_mode }
    {
        matches!(self.access_mode, ChannelAccessMode::Disabled)
    }

    // The two bytes of a response.
    pub fn bytes(self) -> Result<[u8; 2], Refusal>
        ensures { said result ≡ access_bytes self }
    {
        let mode = self.access_mode.field()?;
        let limit = self.privilege_level_limit.field()?;
        let first = mode
            | (self.user_level_auth_disabled as u8) << 3
            | (self.per_msg_auth_disabled as u8) << 4
            | (self.alerting_disabled as u8) << 5;
        Ok([first, limit])
    }

    // The response's data.
    pub fn write(self, out: &mut [u8]) -> Result<usize, Refusal>
        ensures { Writes (access_bytes self) result out.old out.new }
    {
        place(&self.bytes()?, out)
    }
}

// IPMI 2.0, Table 6-4.
#[derive(Clone, Copy)]
pub enum ChannelAccessMode {
    Disabled,
    PreBootOnly,
    AlwaysAvailable,
    Shared,
    Unknown(u8),
}

impl From<u8> for ChannelAccessMode {
    ghost from_gives = { λ value mode. mode ≡ mode_of value };

    fn from(value: u8) -> Self {
        match value {
            0 => ChannelAccessMode::Disabled,
            1 => ChannelAccessMode::PreBootOnly,
            2 => ChannelAccessMode::AlwaysAvailable,
            3 => ChannelAccessMode::Shared,
            _ => ChannelAccessMode::Unknown(value),
        }
    }
}

impl From<ChannelAccessMode> for u8 {
    ghost from_gives = { λ mode value. value ≡ mode_value mode };

    fn from(mode: ChannelAccessMode) -> u8 {
        match mode {
            ChannelAccessMode::Disabled => 0,
            ChannelAccessMode::PreBootOnly => 1,
            ChannelAccessMode::AlwaysAvailable => 2,
            ChannelAccessMode::Shared => 3,
            ChannelAccessMode::Unknown(value) => value,
        }
    }
}

impl ChannelAccessMode {
    // The mode's number in a message.
    pub fn field(self) -> Result<u8, Refusal>
        ensures { said result ≡ mode_field self }
    {
        match self {
            ChannelAccessMode::Unknown(value) => within(value, 4, 7),
            _ => Ok(self.into()),
        }
    }

    // A writer and no Display: C lends the memory, which has all of the text or none of it.
    pub fn text(self, out: &mut [u8]) -> Result<usize, Refusal>
        ensures { Writes (accepted (mode_text self)) result out.old out.new }
    {
        match self {
            ChannelAccessMode::Disabled => place(b"Disabled", out),
            ChannelAccessMode::PreBootOnly => place(b"Pre-boot Only", out),
            ChannelAccessMode::AlwaysAvailable => place(b"Always Available", out),
            ChannelAccessMode::Shared => place(b"Shared", out),
            ChannelAccessMode::Unknown(value) => coded(b"Unknown", value, out),
        }
    }
}

#[derive(Clone, Copy)]
pub enum ChannelPrivilegeLevel {
    Reserved,
    Callback,
    User,
    Operator,
    Administrator,
    Oem,
    Unknown(u8),
}

impl From<u8> for ChannelPrivilegeLevel {
    ghost from_gives = { λ value limit. limit ≡ limit_of value };

    fn from(value: u8) -> Self {
        match value {
            0 => ChannelPrivilegeLevel::Reserved,
            1 => ChannelPrivilegeLevel::Callback,
            2 => ChannelPrivilegeLevel::User,
            3 => ChannelPrivilegeLevel::Operator,
            4 => ChannelPrivilegeLevel::Administrator,
            5 => ChannelPrivilegeLevel::Oem,
            _ => ChannelPrivilegeLevel::Unknown(value),
        }
    }
}

impl From<ChannelPrivilegeLevel> for u8 {
    ghost from_gives = { λ limit value. value ≡ limit_value limit };

    fn from(limit: ChannelPrivilegeLevel) -> u8 {
        match limit {
            ChannelPrivilegeLevel::Reserved => 0,
            ChannelPrivilegeLevel::Callback => 1,
            ChannelPrivilegeLevel::User => 2,
            ChannelPrivilegeLevel::Operator => 3,
            ChannelPrivilegeLevel::Administrator => 4,
            ChannelPrivilegeLevel::Oem => 5,
            ChannelPrivilegeLevel::Unknown(value) => value,
        }
    }
}

impl ChannelPrivilegeLevel {
    // The limit's number in a message.
    pub fn field(self) -> Result<u8, Refusal>
        ensures { said result ≡ limit_field self }
    {
        match self {
            ChannelPrivilegeLevel::Unknown(value) => within(value, 6, 15),
            _ => Ok(self.into()),
        }
    }

    // A writer and no Display: C lends the memory, which has all of the text or none of it.
    pub fn text(self, out: &mut [u8]) -> Result<usize, Refusal>
        ensures { Writes (accepted (limit_text self)) result out.old out.new }
    {
        match self {
            ChannelPrivilegeLevel::Reserved => place(b"Reserved", out),
            ChannelPrivilegeLevel::Callback => place(b"Callback", out),
            ChannelPrivilegeLevel::User => place(b"User", out),
            ChannelPrivilegeLevel::Operator => place(b"Operator", out),
            ChannelPrivilegeLevel::Administrator => place(b"Administrator", out),
            ChannelPrivilegeLevel::Oem => place(b"OEM", out),
            ChannelPrivilegeLevel::Unknown(value) => coded(b"Unknown", value, out),
        }
    }
}
