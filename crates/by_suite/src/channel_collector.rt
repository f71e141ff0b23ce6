// A collector of one channel's answers as they come: document 02, C-12. It is the collector, and a byte beside it that says which
// channel it takes answers from.
ghost use Rattle.std.specs.Prelude.{◌≡◌, if◌then◌else◌};
ghost use Rattle.base.specs.Refusal.{row, said};
ghost use Rattle.base.specs.Verdict.{Gives};
ghost use Rattle.base.specs.Written.{Writes};
ghost use Rattle.collector.specs.Stored.{collector_of, well_stored};
ghost use Rattle.suites.specs.GetChannelCipherSuites.{zeros};
ghost use Rattle.by_suite.specs.ChannelCollector.{agrees, from_fits, from_for, heard_on, lent_as, list_from, made_for, standing_from, suites_from, taken_fits, taking_from};
ghost use Rattle.by_suite.specs.GetChannelCipherSuites.{is_channel};

use crate::get_channel_cipher_suites::number_in;
use base::connection::Channel;
use base::refusal::Refusal;
use collector::{Collector, Status, answer_in, list_in, status_in};
use suites::collected::collected_suites_in;

const CURRENT: u8 = 0xE;

// `channel` is the number that it was made for; `from` is one more than the number that its answers have, 0 while none is taken:
// a number, since C declares the struct.
#[repr(C)]
#[derive(Drop)]
pub struct ChannelCollector {
    pub channel: u8,
    pub from: u8,
    pub collector: Collector,
}

// No Result alone: a refused collector is given back as it came.
#[derive(Drop)]
pub struct ChannelAnswered {
    pub verdict: Result<(), Refusal>,
    pub collector: ChannelCollector,
}

fn is_channel(number: u8) -> bool
    ensures { result ≡ is_channel number }
{
    Channel::new(number).is_ok()
}

// Where a fresh collector for a channel takes answers from.
pub fn fresh_from(channel: u8) -> Result<u8, Refusal>
    ensures { said result ≡ from_for channel }
{
    if channel == CURRENT {
        return Ok(0);
    }
    let Ok(_) = Channel::new(channel) else {
        return Err(Refusal::NoChannel);
    };
    Ok(channel + 1)
}

fn agrees(from: u8, number: u8) -> bool
    ensures { result ≡ agrees from number }
{
    if from == 0 {
        return true;
    }
    from - 1 == number
}

// No part was heard: a largest byte, which the compiler vectorises.
fn silent(marks: &[u8]) -> bool
    ensures { result ≡ zeros marks.now }
{
    let mut most: u8 = 0;
    for mark in marks {
        most = most.max(*mark);
    }
    most == 0
}

// Of one that is made for Current: a channel is taken exactly where a part was heard.
fn taken_fits(taken: u8, marks: &[u8]) -> bool
    ensures { result ≡ taken_fits taken marks.now }
{
    if silent(marks) {
        return taken == 0;
    }
    if taken == 0 {
        return false;
    }
    is_channel(taken - 1)
}

fn from_fits(channel: u8, from: u8, marks: &[u8]) -> bool
    ensures { result ≡ from_fits channel from marks.now }
{
    if channel == CURRENT {
        return taken_fits(from, marks);
    }
    let Ok(start) = fresh_from(channel) else {
        return false;
    };
    from == start
}

// The channel's number in an answer that may be taken, before the collector itself is tested.
fn heard_by(channel: u8, from: u8, marks: &[u8], index: u8, response: &[u8]) -> Result<u8, Refusal>
    ensures { said result ≡ heard_on channel from marks.now index response.now }
{
    if !from_fits(channel, from, marks) {
        return Err(Refusal::NoForm);
    }
    if Collector::LAST_INDEX < index {
        return Err(Refusal::BadIndex);
    }
    let number = number_in(response)?;
    if agrees(from, number) {
        return Ok(number);
    }
    Err(Refusal::WrongChannel)
}

// A refusal that comes behind the test: 9 is given first.
fn behind_test(
    bytes: &[u8; Collector::CAPACITY],
    marks: &[u8; Collector::PARTS],
    known: &[u8; Collector::KNOWN],
    refusal: Refusal,
) -> Refusal
    ensures { row result ≡ (if well_stored (collector_of bytes.now marks.now known.now) then row refusal else row Refusal.NoForm) }
{
    match status_in(bytes, marks, known) {
        Ok(_) => refusal,
        Err(_) => Refusal::NoForm,
    }
}

// The test runs once: in `answer_in`, or before a refusal that comes behind it.
pub fn answer_from(
    channel: u8,
    from: &mut u8,
    bytes: &mut [u8; Collector::CAPACITY],
    marks: &mut [u8; Collector::PARTS],
    known: &mut [u8; Collector::KNOWN],
    index: u8,
    response: &[u8],
) -> Result<(), Refusal>
    ensures { Gives (taking_from (lent_as channel from.old bytes.old marks.old known.old) index response.now) (lent_as channel from.old bytes.old marks.old known.old) result (lent_as channel from.new bytes.new marks.new known.new) }
{
    match heard_by(channel, *from, marks, index, response) {
        Ok(number) => {
            answer_in(bytes, marks, known, index, &response[1..])?;
            *from = number + 1;
            Ok(())
        }
        Err(refusal) => Err(behind_test(bytes, marks, known, refusal)),
    }
}

pub fn status_from(
    channel: u8,
    from: u8,
    bytes: &[u8; Collector::CAPACITY],
    marks: &[u8; Collector::PARTS],
    known: &[u8; Collector::KNOWN],
) -> Result<Status, Refusal>
    ensures { said result ≡ standing_from (lent_as channel from bytes.now marks.now known.now) }
{
    if from_fits(channel, from, marks) {
        return status_in(bytes, marks, known);
    }
    Err(Refusal::NoForm)
}

// The list, once it is complete, at the start of out.
pub fn list_from(
    channel: u8,
    from: u8,
    bytes: &[u8; Collector::CAPACITY],
    marks: &[u8; Collector::PARTS],
    known: &[u8; Collector::KNOWN],
    out: &mut [u8],
) -> Result<usize, Refusal>
    ensures { Writes (list_from (lent_as channel from bytes.now marks.now known.now)) result out.old out.new }
{
    if from_fits(channel, from, marks) {
        return list_in(bytes, marks, known, out);
    }
    Err(Refusal::NoForm)
}

// Once the list is complete, its suites' numbers at the start of out.
pub fn suites_from(
    channel: u8,
    from: u8,
    bytes: &[u8; Collector::CAPACITY],
    marks: &[u8; Collector::PARTS],
    known: &[u8; Collector::KNOWN],
    out: &mut [u8],
) -> Result<usize, Refusal>
    ensures { Writes (suites_from (lent_as channel from bytes.now marks.now known.now)) result out.old out.new }
{
    if from_fits(channel, from, marks) {
        return collected_suites_in(bytes, marks, known, out);
    }
    Err(Refusal::NoForm)
}

impl ChannelCollector {
    pub fn made_for(channel: u8) -> Result<Self, Refusal>
        ensures { said result ≡ made_for channel }
    {
        Ok(ChannelCollector {
            channel,
            from: fresh_from(channel)?,
            collector: Collector::fresh(),
        })
    }

    // A refused one is given back as it came.
    pub fn answer(mut self, index: u8, response: &[u8]) -> ChannelAnswered
        ensures { Gives (taking_from self index response.now) self result.verdict result.collector }
    {
        let verdict = answer_from(
            self.channel,
            &mut self.from,
            &mut self.collector.bytes,
            &mut self.collector.marks,
            &mut self.collector.known,
            index,
            response,
        );
        ChannelAnswered {
            verdict,
            collector: self,
        }
    }

    pub fn status(self) -> Result<Status, Refusal>
        ensures { said result ≡ standing_from self }
    {
        let k = &self.collector;
        status_from(self.channel, self.from, &k.bytes, &k.marks, &k.known)
    }

    pub fn list(self, out: &mut [u8]) -> Result<usize, Refusal>
        ensures { Writes (list_from self) result out.old out.new }
    {
        let k = &self.collector;
        list_from(self.channel, self.from, &k.bytes, &k.marks, &k.known, out)
    }

    pub fn suites(self, out: &mut [u8]) -> Result<usize, Refusal>
        ensures { Writes (suites_from self) result out.old out.new }
    {
        let k = &self.collector;
        suites_from(self.channel, self.from, &k.bytes, &k.marks, &k.known, out)
    }
}
