// The collector, lent as its arrays or whole.
ghost use Rattle.std.specs.Prelude.{◌≡◌};
ghost use Rattle.capi.specs.Number.{Codes, Takes, code, standing};
ghost use Rattle.collector.specs.Stored.{collector_of, list_stored, standing_stored, taking_stored};
ghost use Rattle.suites.specs.Collected.{suites_of};

use collector::Collector;

// A collector is lent as its three arrays, which lie one behind the other in its struct.
#[unsafe(no_mangle)]
pub extern "C" fn ghj_collector_answer(
    bytes: &mut [u8; Collector::CAPACITY],
    marks: &mut [u8; Collector::PARTS],
    known: &mut [u8; Collector::KNOWN],
    index: u8,
    response: &[u8],
) -> u64
    ensures { Takes (taking_stored (collector_of bytes.old marks.old known.old) index response.now) result (collector_of bytes.old marks.old known.old) (collector_of bytes.new marks.new known.new) }
{
    capi::collecting::ghj_collector_answer(bytes, marks, known, index, response)
}

// The same of a collector that is lent whole.
#[unsafe(no_mangle)]
pub extern "C" fn ghj_collector_take(collector: &mut Collector, index: u8, response: &[u8]) -> u64
    ensures { Takes (taking_stored collector.old index response.now) result collector.old collector.new }
{
    capi::collecting::ghj_collector_take(collector, index, response)
}

#[unsafe(no_mangle)]
pub extern "C" fn ghj_collector_status(
    bytes: &[u8; Collector::CAPACITY],
    marks: &[u8; Collector::PARTS],
    known: &[u8; Collector::KNOWN],
) -> u64
    ensures { result ≡ code (standing (standing_stored (collector_of bytes.now marks.now known.now))) }
{
    capi::collecting::ghj_collector_status(bytes, marks, known)
}

#[unsafe(no_mangle)]
pub extern "C" fn ghj_collector_list(
    bytes: &[u8; Collector::CAPACITY],
    marks: &[u8; Collector::PARTS],
    known: &[u8; Collector::KNOWN],
    out: &mut [u8],
) -> u64
    ensures { Codes (list_stored (collector_of bytes.now marks.now known.now)) result out.old out.new }
{
    capi::collecting::ghj_collector_list(bytes, marks, known, out)
}

#[unsafe(no_mangle)]
pub extern "C" fn ghj_collector_suites(
    bytes: &[u8; Collector::CAPACITY],
    marks: &[u8; Collector::PARTS],
    known: &[u8; Collector::KNOWN],
    out: &mut [u8],
) -> u64
    ensures { Codes (suites_of (collector_of bytes.now marks.now known.now)) result out.old out.new }
{
    capi::collecting::ghj_collector_suites(bytes, marks, known, out)
}
