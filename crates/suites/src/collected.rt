// The suites of a collected list: document 01, "asked for bytes or suites (a number byte each)".
ghost use Rattle.base.specs.Written.{Writes};
ghost use Rattle.collector.specs.Stored.{collector_of};
ghost use Rattle.suites.specs.Collected.{suites_of};

use crate::get_channel_cipher_suites::suite_numbers;
use base::refusal::Refusal;
use collector::{Collector, Status, status_in};

// Once the list is complete, its suites' numbers at the start of out.
pub fn collected_suites_in(
    bytes: &[u8; Collector::CAPACITY],
    marks: &[u8; Collector::PARTS],
    known: &[u8; Collector::KNOWN],
    out: &mut [u8],
) -> Result<usize, Refusal>
    ensures { Writes (suites_of (collector_of bytes.now marks.now known.now)) result out.old out.new }
{
    match status_in(bytes, marks, known)? {
        Status::Complete(length) => suite_numbers(&bytes[..length], out),
        Status::Missing(index) => Err(Refusal::Incomplete(index)),
    }
}

pub fn collected_suites(collector: Collector, out: &mut [u8]) -> Result<usize, Refusal>
    ensures { Writes (suites_of collector) result out.old out.new }
{
    collected_suites_in(&collector.bytes, &collector.marks, &collector.known, out)
}
