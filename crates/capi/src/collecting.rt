// The collector, lent as its arrays or whole.
ghost use Rattle.std.specs.Prelude.{◌≡◌};
ghost use Rattle.capi.specs.Number.{Codes, Takes, code, standing};
ghost use Rattle.collector.specs.Stored.{collector_of, list_stored, standing_stored, taking_stored};
ghost use Rattle.suites.specs.Collected.{suites_of};

use crate::number::{code, status_code, verdict_code};
use collector::{Collector, answer_in, answer_lent, list_in, status_in};
use suites::collected::collected_suites_in;

// A collector is lent as its three arrays, which lie one behind the other in its struct.
pub fn ghj_collector_answer(
    bytes: &mut [u8; Collector::CAPACITY],
    marks: &mut [u8; Collector::PARTS],
    known: &mut [u8; Collector::KNOWN],
    index: u8,
    response: &[u8],
) -> u64
    ensures { Takes (taking_stored (collector_of bytes.old marks.old known.old) index response.now) result (collector_of bytes.old marks.old known.old) (collector_of bytes.new marks.new known.new) }
{
    verdict_code(answer_in(bytes, marks, known, index, response))
}

// The same of a collector that is lent whole.
pub fn ghj_collector_take(collector: &mut Collector, index: u8, response: &[u8]) -> u64
    ensures { Takes (taking_stored collector.old index response.now) result collector.old collector.new }
{
    verdict_code(answer_lent(collector, index, response))
}

pub fn ghj_collector_status(
    bytes: &[u8; Collector::CAPACITY],
    marks: &[u8; Collector::PARTS],
    known: &[u8; Collector::KNOWN],
) -> u64
    ensures { result ≡ code (standing (standing_stored (collector_of bytes.now marks.now known.now))) }
{
    status_code(status_in(bytes, marks, known))
}

pub fn ghj_collector_list(
    bytes: &[u8; Collector::CAPACITY],
    marks: &[u8; Collector::PARTS],
    known: &[u8; Collector::KNOWN],
    out: &mut [u8],
) -> u64
    ensures { Codes (list_stored (collector_of bytes.now marks.now known.now)) result out.old out.new }
{
    code(list_in(bytes, marks, known, out))
}

pub fn ghj_collector_suites(
    bytes: &[u8; Collector::CAPACITY],
    marks: &[u8; Collector::PARTS],
    known: &[u8; Collector::KNOWN],
    out: &mut [u8],
) -> u64
    ensures { Codes (suites_of (collector_of bytes.now marks.now known.now)) result out.old out.new }
{
    code(collected_suites_in(bytes, marks, known, out))
}
