// Get Channel Info, App 42h: IPMI 2.0, Table 22-29; the Rust's get_channel_info.rs.
ghost use Rattle.std.specs.Prelude.{◌≡◌};
ghost use Rattle.info.specs.GetChannelInfo.{Typed, command, command_bytes, command_for, command_of, info_bytes, info_of};
ghost use Rattle.base.specs.Refusal.{said};
ghost use Rattle.base.specs.Written.{Writes};

use base::connection::Channel;
use base::field::{bits, within};
use base::little::{bytes, number};
use base::refusal::Refusal;
use base::written::place;
use media::get_channel_info::{ChannelMediumType, ChannelProtocolType, ChannelSessionSupport};

#[derive(Drop)]
pub struct GetChannelInfo {
    pub channel: Channel,
}

impl GetChannelInfo {
    pub const COMMAND: u8 = 0x42;

    pub fn new(channel: Channel) -> Self
        ensures { result ≡ command channel }
    {
        Self { channel }
    }

    // For a channel that is given as a number.
    pub fn numbered(number: u8) -> Result<Self, Refusal>
        ensures { said result ≡ command_for number }
    {
        Ok(Self::new(Channel::new(number)?))
    }

    // The request's data.
    pub fn write(self, out: &mut [u8]) -> Result<usize, Refusal>
        ensures { Writes (command_bytes self) result out.old out.new }
    {
        place(&[self.channel.field()?], out)
    }

    // The command whose request this is: takes only what some command writes.
    pub fn read(request: &[u8]) -> Result<Self, Refusal>
        ensures { said result ≡ command_of request.now }
    {
        let [number] = *request else {
            return Err(Refusal::NotARequest);
        };
        let Ok(channel) = Channel::new(number) else {
            return Err(Refusal::NotARequest);
        };
        Ok(Self::new(channel))
    }
}

#[derive(Clone, Copy)]
pub struct ChannelInfo {
    pub channel: Channel,
    pub medium_type: ChannelMediumType,
    pub protocol_type: ChannelProtocolType,
    pub session_support: ChannelSessionSupport,
    pub active_sessions: u8,
    pub vendor_id: u32,
    pub aux_info: AuxChannelInfo,
}

#[derive(Clone, Copy)]
pub struct AuxChannelInfo {
    pub byte1: u8,
    pub byte2: u8,
}

impl ChannelInfo {
    // What the machine gives of every record; the laws ask for it.
    fn typed(self)
        ensures { Typed self }
    {}

    // A bad channel is refused as a short response is.
    pub fn parse(response: &[u8]) -> Result<Self, Refusal>
        ensures { said result ≡ info_of response.now }
    {
        if response.len() < 9 {
            return Err(Refusal::NotEnoughData);
        }
        let Ok(channel) = Channel::new(bits(response[0], 0, 4)) else {
            return Err(Refusal::NotEnoughData);
        };
        let sessions = response[3];
        let aux_info = AuxChannelInfo {
            byte1: response[7],
            byte2: response[8],
        };
        // Named before Ok has it: built inside Ok, a call from C takes half as long again (DECISIONS 130).
        let info = ChannelInfo {
            channel,
            medium_type: bits(response[1], 0, 7).into(),
            protocol_type: bits(response[2], 0, 5).into(),
            session_support: bits(sessions, 6, 2).into(),
            active_sessions: bits(sessions, 0, 6),
            vendor_id: number([response[4], response[5], response[6], 0]),
            aux_info,
        };
        Ok(info)
    }

    fn bytes(self) -> Result<[u8; 9], Refusal>
        ensures { said result ≡ info_bytes self }
    {
        let channel = self.channel.field()?;
        let medium = self.medium_type.field()?;
        let protocol = self.protocol_type.field()?;
        let session = self.session_support.field()?;
        let active = within(self.active_sessions, 0, 0x3F)?;
        let vendor = self.vendor_id;
        if 0xFF_FFFF < vendor {
            return Err(Refusal::NoForm);
        }
        let sessions = session << 6 | active;
        let [low, middle, high] = bytes::<3>(vendor as u64);
        let AuxChannelInfo { byte1, byte2 } = self.aux_info;
        Ok([
            channel, medium, protocol, sessions, low, middle, high, byte1, byte2,
        ])
    }

    // The response's data.
    pub fn write(self, out: &mut [u8]) -> Result<usize, Refusal>
        ensures { Writes (info_bytes self) result out.old out.new }
    {
        place(&self.bytes()?, out)
    }
}
