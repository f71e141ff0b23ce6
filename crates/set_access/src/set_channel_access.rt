// Set Channel Access, App 40h: IPMI 2.0, section 22.22. The Rust has no such command.
ghost use Rattle.std.specs.Prelude.{◌≡◌};
ghost use Rattle.base.specs.Refusal.{said};
ghost use Rattle.base.specs.Written.{Writes};
ghost use Rattle.set_access.specs.SetChannelAccess.{applied, changed, chosen, command_bytes, command_for, command_of, pair_field, pair_in, pair_of, pair_value, parts_bytes, sets};

use access::get_channel_access::{ChannelAccess, ChannelAccessType};
use base::connection::Channel;
use base::field::bits;
use base::refusal::Refusal;
use base::written::place;

// Which of a channel's two settings a part of the command sets: a pair of bits. `Reserved` is the pair 11.
#[derive(Clone, Copy, PartialEq, Eq)]
pub enum AccessPair {
    Leave,
    NonVolatile,
    Volatile,
    Reserved,
}

impl From<u8> for AccessPair {
    ghost from_gives = { λ value pair. pair ≡ pair_of value };

    fn from(value: u8) -> Self {
        match value {
            0 => AccessPair::Leave,
            1 => AccessPair::NonVolatile,
            2 => AccessPair::Volatile,
            _ => AccessPair::Reserved,
        }
    }
}

impl From<AccessPair> for u8 {
    ghost from_gives = { λ pair value. value ≡ pair_value pair };

    fn from(pair: AccessPair) -> u8 {
        match pair {
            AccessPair::Leave => 0,
            AccessPair::NonVolatile => 1,
            AccessPair::Volatile => 2,
            AccessPair::Reserved => 3,
        }
    }
}

impl AccessPair {
    // The pair's number in a message.
    pub fn field(self) -> Result<u8, Refusal>
        ensures { said result ≡ pair_field self }
    {
        match self {
            AccessPair::Reserved => Err(Refusal::NoForm),
            _ => Ok(self.into()),
        }
    }

    // Bits 7:6 of a byte of a request.
    fn of(byte: u8) -> Result<Self, Refusal>
        ensures { said result ≡ pair_in byte }
    {
        let pair = AccessPair::from(bits(byte, 6, 2));
        pair.field()?;
        Ok(pair)
    }

    fn sets(self, kind: ChannelAccessType) -> bool
        ensures { result ≡ sets self kind }
    {
        match kind {
            ChannelAccessType::NonVolatile => self == AccessPair::NonVolatile,
            ChannelAccessType::Volatile => self == AccessPair::Volatile,
        }
    }

    fn chosen(
        self,
        kind: ChannelAccessType,
        set: ChannelAccess,
        before: ChannelAccess,
    ) -> ChannelAccess
        ensures { result ≡ chosen self kind set before }
    {
        if self.sets(kind) { set } else { before }
    }
}

// `mode_pair` speaks of the mode and the disable bits of `access`, `limit_pair` of its limit.
#[derive(Clone, Copy)]
pub struct SetChannelAccess {
    pub channel: Channel,
    pub mode_pair: AccessPair,
    pub limit_pair: AccessPair,
    pub access: ChannelAccess,
}

// One channel's two settings.
#[derive(Drop)]
pub struct ChannelSettings {
    pub non_volatile: ChannelAccess,
    pub volatile: ChannelAccess,
}

impl SetChannelAccess {
    pub const COMMAND: u8 = 0x40;

    // For a channel that is given as a number.
    pub fn numbered(
        number: u8,
        mode_pair: AccessPair,
        limit_pair: AccessPair,
        access: ChannelAccess,
    ) -> Result<Self, Refusal>
        ensures { said result ≡ command_for number mode_pair limit_pair access }
    {
        let channel = Channel::new(number)?;
        Ok(Self {
            channel,
            mode_pair,
            limit_pair,
            access,
        })
    }

    // Bytes 1 and 2.
    fn parts(self) -> Result<[u8; 2], Refusal>
        ensures { said result ≡ parts_bytes self }
    {
        let mode = self.mode_pair.field()?;
        let limit = self.limit_pair.field()?;
        let [first, second] = self.access.bytes()?;
        Ok([first | mode << 6, second | limit << 6])
    }

    // The request's data.
    pub fn write(self, out: &mut [u8]) -> Result<usize, Refusal>
        ensures { Writes (command_bytes self) result out.old out.new }
    {
        let number = self.channel.field()?;
        let [mode, limit] = self.parts()?;
        place(&[number, mode, limit], out)
    }

    // The command whose request this is: takes only what some command writes.
    pub fn read(request: &[u8]) -> Result<Self, Refusal>
        ensures { said result ≡ command_of request.now }
    {
        let [number, mode, limit] = *request else {
            return Err(Refusal::NotARequest);
        };
        if bits(limit, 4, 2) != 0 {
            return Err(Refusal::NotARequest);
        }
        let Ok(channel) = Channel::new(number) else {
            return Err(Refusal::NotARequest);
        };
        let Ok(mode_pair) = AccessPair::of(mode) else {
            return Err(Refusal::NotARequest);
        };
        let Ok(limit_pair) = AccessPair::of(limit) else {
            return Err(Refusal::NotARequest);
        };
        let Ok(access) = ChannelAccess::parse(&[mode, limit]) else {
            return Err(Refusal::NotARequest);
        };
        Ok(Self {
            channel,
            mode_pair,
            limit_pair,
            access,
        })
    }

    // One of the two settings, after the command.
    fn changed(self, kind: ChannelAccessType, before: ChannelAccess) -> ChannelAccess
        ensures { result ≡ changed kind self before }
    {
        let m = self.mode_pair.chosen(kind, self.access, before);
        let l = self.limit_pair.chosen(kind, self.access, before);
        ChannelAccess {
            privilege_level_limit: l.privilege_level_limit,
            ..m
        }
    }

    // The settings after the command: what it marks leave stays. Looks neither at its channel nor at their values.
    pub fn apply(self, settings: ChannelSettings) -> Result<ChannelSettings, Refusal>
        ensures { said result ≡ applied self settings }
    {
        self.parts()?;
        Ok(ChannelSettings {
            non_volatile: self.changed(ChannelAccessType::NonVolatile, settings.non_volatile),
            volatile: self.changed(ChannelAccessType::Volatile, settings.volatile),
        })
    }
}
