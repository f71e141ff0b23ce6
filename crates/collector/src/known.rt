// What is known of the parts, kept up as they are heard.
ghost use Rattle.std.specs.Prelude.{◌≤◌, ◌≡◌};
ghost use Rattle.collector.specs.Collector.{complete_by, lowest, parts};
ghost use Rattle.collector.specs.Shape.{HeardBelow};

use crate::Collector;
use crate::shape::FULL;

// The lowest unheard index, where all below one were heard: in order it is the next.
pub(crate) fn unheard_from(marks: &[u8; Collector::PARTS], from: u8) -> u8
    requires { (from ≤ parts) × HeardBelow marks.now from }
    ensures { result ≡ lowest marks.now parts }
{
    for i in from..=Collector::LAST_INDEX {
        if marks[i as usize] == 0 {
            return i;
        }
    }
    Collector::LAST_INDEX + 1
}

// Every index was heard, or the part before the lowest unheard one is not full.
pub(crate) fn ended(marks: &[u8; Collector::PARTS], low: u8) -> bool
    requires { low ≡ lowest marks.now parts }
    ensures { result ≡ complete_by marks.now }
{
    if Collector::LAST_INDEX < low {
        return true;
    }
    if low == 0 {
        return false;
    }
    marks[low as usize - 1] < FULL
}
