// Channels, addresses and units: the Rust's connection/mod.rs. `text` is its Display, `try_from` its TryFrom<u8>.
ghost use Rattle.std.specs.Prelude.{◌≡◌, Some, ok_or};
ghost use Rattle.base.specs.Connection.{channel_field, channel_number_of, channel_of, channel_text, unit_of, unit_value, value_of};
ghost use Rattle.base.specs.Field.{bits};
ghost use Rattle.base.specs.Outcome.{accepted};
ghost use Rattle.base.specs.Refusal.{said};
ghost use Rattle.base.specs.Written.{Writes};

use crate::field::{bits, within};
use crate::refusal::Refusal;
use crate::text::digit;
use crate::written::place;

// The network function of all commands here, App: in requests, and in responses.
pub const APP: u8 = 0x06;

pub const APP_RESPONSE: u8 = 0x07;

// The address of a module or sensor.
#[derive(Drop)]
pub struct Address(pub u8);

#[derive(Clone, Copy)]
pub struct ChannelNumber(pub u8);

impl ChannelNumber {
    pub fn new(value: u8) -> Result<Self, Refusal>
        ensures { said result ≡ channel_number_of value }
    {
        match value {
            1..=0xB => Ok(ChannelNumber(value)),
            _ => Err(Refusal::NoChannel),
        }
    }

    pub fn value(self) -> u8
        ensures { result ≡ self.0 }
    {
        self.0
    }

    // Rust's {:01X}: one digit, or two where the number holds more. No Display, as `Channel::text`.
    fn text(self, out: &mut [u8]) -> Result<usize, Refusal>
        ensures { Writes (accepted (channel_text (Channel.Numbered self))) result out.old out.new }
    {
        let value = self.0;
        let mut text = *b"Channel 0x00";
        if value < 16 {
            text[10] = digit(value);
            return place(&text[0..11], out);
        }
        text[10] = digit(value / 16);
        text[11] = digit(value);
        place(&text, out)
    }
}

#[derive(Clone, Copy)]
pub enum Channel {
    Primary,
    Numbered(ChannelNumber),
    System,
    Current,
}

impl Channel {
    pub fn new(value: u8) -> Result<Self, Refusal>
        ensures { said result ≡ channel_of value }
    {
        match value {
            0 => Ok(Channel::Primary),
            0xE => Ok(Channel::Current),
            0xF => Ok(Channel::System),
            _ => Ok(Channel::Numbered(ChannelNumber::new(value)?)),
        }
    }

    pub fn value(self) -> u8
        ensures { result ≡ value_of self }
    {
        match self {
            Channel::Primary => 0,
            Channel::Numbered(number) => number.value(),
            Channel::Current => 0xE,
            Channel::System => 0xF,
        }
    }

    // The channel's number in a message.
    pub fn field(self) -> Result<u8, Refusal>
        ensures { said result ≡ channel_field self }
    {
        match self {
            Channel::Primary => Ok(0),
            Channel::Numbered(number) => within(number.value(), 1, 0xB),
            Channel::Current => Ok(0xE),
            Channel::System => Ok(0xF),
        }
    }

    // A writer and no Display: C lends the memory, which has all of the text or none of it.
    pub fn text(self, out: &mut [u8]) -> Result<usize, Refusal>
        ensures { Writes (accepted (channel_text self)) result out.old out.new }
    {
        match self {
            Channel::Primary => place(b"Primary channel", out),
            Channel::Numbered(number) => number.text(out),
            Channel::Current => place(b"Current channel", out),
            Channel::System => place(b"System channel", out),
        }
    }
}

#[derive(Drop)]
pub enum LogicalUnit {
    Zero,
    One,
    Two,
    Three,
}

impl LogicalUnit {
    pub fn from_low_bits(value: u8) -> Self
        ensures { Some result ≡ unit_of (bits 0 2 value) }
    {
        match bits(value, 0, 2) {
            0 => LogicalUnit::Zero,
            1 => LogicalUnit::One,
            2 => LogicalUnit::Two,
            _ => LogicalUnit::Three,
        }
    }

    pub fn value(self) -> u8
        ensures { result ≡ unit_value self }
    {
        match self {
            LogicalUnit::Zero => 0,
            LogicalUnit::One => 1,
            LogicalUnit::Two => 2,
            LogicalUnit::Three => 3,
        }
    }
}

impl TryFrom<u8> for LogicalUnit {
    type Error = ();

    ghost try_from_gives = { λ value result. result ≡ ok_or (unit_of value) tt };

    // The whole number counts.
    fn try_from(value: u8) -> Result<Self, ()> {
        if 3 < value {
            return Err(());
        }
        Ok(Self::from_low_bits(value))
    }
}
