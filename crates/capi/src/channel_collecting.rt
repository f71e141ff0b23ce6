// The collector of a channel's answers, lent as the number that it was made for, a byte and the collector's three arrays.
ghost use Rattle.std.specs.Prelude.{◌≡◌};
ghost use Rattle.by_suite.specs.ChannelCollector.{from_for, lent_as, list_from, standing_from, suites_from, taking_from};
ghost use Rattle.capi.specs.Number.{Codes, Takes, code, standing};

use crate::number::{code, refused, status_code, verdict_code};
use by_suite::channel_collector::{answer_from, fresh_from, list_from, status_from, suites_from};
use collector::Collector;

// The byte of a fresh one; its arrays are zeros.
pub fn ghj_channel_collector_from(channel: u8) -> u64
    ensures { result ≡ code (from_for channel) }
{
    match fresh_from(channel) {
        Ok(from) => from as u64,
        Err(refusal) => refused(refusal),
    }
}

pub fn ghj_channel_collector_answer(
    channel: u8,
    from: &mut u8,
    bytes: &mut [u8; Collector::CAPACITY],
    marks: &mut [u8; Collector::PARTS],
    known: &mut [u8; Collector::KNOWN],
    index: u8,
    response: &[u8],
) -> u64
    ensures { Takes (taking_from (lent_as channel from.old bytes.old marks.old known.old) index response.now) result (lent_as channel from.old bytes.old marks.old known.old) (lent_as channel from.new bytes.new marks.new known.new) }
{
    verdict_code(answer_from(channel, from, bytes, marks, known, index, response))
}

pub fn ghj_channel_collector_status(
    channel: u8,
    from: u8,
    bytes: &[u8; Collector::CAPACITY],
    marks: &[u8; Collector::PARTS],
    known: &[u8; Collector::KNOWN],
) -> u64
    ensures { result ≡ code (standing (standing_from (lent_as channel from bytes.now marks.now known.now))) }
{
    status_code(status_from(channel, from, bytes, marks, known))
}

pub fn ghj_channel_collector_list(
    channel: u8,
    from: u8,
    bytes: &[u8; Collector::CAPACITY],
    marks: &[u8; Collector::PARTS],
    known: &[u8; Collector::KNOWN],
    out: &mut [u8],
) -> u64
    ensures { Codes (list_from (lent_as channel from bytes.now marks.now known.now)) result out.old out.new }
{
    code(list_from(channel, from, bytes, marks, known, out))
}

pub fn ghj_channel_collector_suites(
    channel: u8,
    from: u8,
    bytes: &[u8; Collector::CAPACITY],
    marks: &[u8; Collector::PARTS],
    known: &[u8; Collector::KNOWN],
    out: &mut [u8],
) -> u64
    ensures { Codes (suites_from (lent_as channel from bytes.now marks.now known.now)) result out.old out.new }
{
    code(suites_from(channel, from, bytes, marks, known, out))
}
