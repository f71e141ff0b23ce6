// Get Channel Cipher Suites, App 54h, asked by suite: IPMI 2.0, Table 22-17. Beside the Rust's get_channel_cipher_suites.rs.
ghost use Rattle.std.specs.Prelude.{◌≡◌};
ghost use Rattle.by_suite.specs.GetChannelCipherSuites.{Typed, answer_bytes, answer_of, number_in};
ghost use Rattle.base.specs.Refusal.{said};
ghost use Rattle.base.specs.Written.{Writes};

use base::connection::Channel;
use base::field::bits;
use base::refusal::Refusal;
use base::written::place;
use collector::Collector;
use suites::get_channel_cipher_suites::{ChannelCipherSuites, ListCommand};

// The command: bit 7 of its request's last byte is set.
pub type BySuite = ListCommand<0x80>;

// The most bytes of an answer: its channel, and a part of the list.
const ANSWER: usize = 1 + Collector::PART;

// What the first byte of an answer says: the channel's number. The low nibble alone counts.
pub(crate) fn number_in(response: &[u8]) -> Result<u8, Refusal>
    ensures { said result ≡ number_in response.now }
{
    if response.len() == 0 {
        return Err(Refusal::NotEnoughData);
    }
    if ANSWER < response.len() {
        return Err(Refusal::TooMuchData);
    }
    let number = bits(response[0], 0, 4);
    let Ok(_) = Channel::new(number) else {
        return Err(Refusal::NoChannel);
    };
    Ok(number)
}

// An answer's channel, and its part of the list.
#[derive(Drop)]
pub struct ChannelSuites {
    pub channel: Channel,
    pub suites: ChannelCipherSuites,
}

impl ChannelSuites {
    // What the machine gives of every answer; the laws ask for it.
    fn typed(self)
        ensures { Typed self }
    {}

    pub fn parse(response: &[u8]) -> Result<Self, Refusal>
        ensures { said result ≡ answer_of response.now }
    {
        let channel = Channel::new(number_in(response)?)?;
        let suites = ChannelCipherSuites::parse(&response[1..])?;
        Ok(ChannelSuites { channel, suites })
    }

    // The response's data, the high nibble of its first byte 0.
    pub fn write(self, out: &mut [u8]) -> Result<usize, Refusal>
        ensures { Writes (answer_bytes self) result out.old out.new }
    {
        let number = self.channel.field()?;
        let mut message = [0; ANSWER];
        let length = self.suites.write(&mut message[1..])?;
        message[0] = number;
        place(&message[..length + 1], out)
    }
}
