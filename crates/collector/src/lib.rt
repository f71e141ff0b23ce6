// Joins a list that arrives a part at a time: document 01, "The collector"; document 02, C-15. Its entries work on lent arrays;
// what takes a collector by value or lent is thin over them.
#![tactic(auto)]

ghost use Rattle.std.specs.Prelude.{◌+◌, ◌*◌, ◌≤◌, ◌≡◌, length, get_or};
ghost use Rattle.std.proofs.Math.Seq.{paste};
ghost use Rattle.base.specs.Refusal.{said};
ghost use Rattle.base.specs.Verdict.{Gives};
ghost use Rattle.base.specs.Written.{Writes};
ghost use Rattle.collector.specs.Collector.{held, last_index, lowest, part_length, parts, put};
ghost use Rattle.collector.specs.Stored.{fresh_stored, knowing, collector_of, list_stored, standing_stored, taking_stored};

use crate::known::{ended, unheard_from};
use crate::tested::{Judgement, Tested};
use base::refusal::Refusal;
use base::written::place;

mod known;
mod shape;
mod tested;

// The parts that were heard stand at their places among the bytes, zeros elsewhere. A part's mark is 0 where it was
// not heard, and one more than its length where it was. Known is what a search would find: the lowest unheard index, PARTS
// where there is none, then 1 where the list is complete. All are numbers, since C declares the struct and lends each array by itself.
#[repr(C)]
#[derive(Clone, Copy)]
pub struct Collector {
    pub bytes: [u8; Collector::CAPACITY],
    pub marks: [u8; Collector::PARTS],
    pub known: [u8; Collector::KNOWN],
}

// No Result alone: a refused collector is given back as it came.
#[derive(Drop)]
pub struct Answered {
    pub verdict: Result<(), Refusal>,
    pub collector: Collector,
}

// Complete, with the list's length; not, with the lowest unheard index.
#[derive(Drop)]
pub enum Status {
    Complete(usize),
    Missing(u8),
}

// Where a part begins.
pub(crate) fn start(index: u8) -> usize
    ensures { result ≡ part_length * index }
{
    Collector::PART * index as usize
}

// Byte by byte, as `place` does.
fn put(bytes: &mut [u8], at: usize, part: &[u8])
    requires { at + length part.now ≤ length bytes.old }
    ensures { bytes.new ≡ paste bytes.old at part.now (length part.now) }
{
    for i in 0..part.len() {
        bytes[at + i] = part[i];
    }
}

// A part that is new, and what a search would find now.
fn store(
    bytes: &mut [u8; Collector::CAPACITY],
    marks: &mut [u8; Collector::PARTS],
    known: &mut [u8; Collector::KNOWN],
    index: u8,
    response: &[u8],
)
    requires { (get_or known.old 0 0 ≡ lowest marks.old parts) × ((index ≤ last_index) × (length response.now ≤ part_length)) }
    ensures { collector_of bytes.new marks.new known.new ≡ knowing (put (held bytes.old marks.old) index response.now) }
{
    marks[index as usize] = (response.len() + 1) as u8;
    put(bytes, start(index), response);
    let low = unheard_from(marks, known[0]);
    known[0] = low;
    known[1] = ended(marks, low) as u8;
}

pub fn answer_in(
    bytes: &mut [u8; Collector::CAPACITY],
    marks: &mut [u8; Collector::PARTS],
    known: &mut [u8; Collector::KNOWN],
    index: u8,
    response: &[u8],
) -> Result<(), Refusal>
    ensures { Gives (taking_stored (collector_of bytes.old marks.old known.old) index response.now) (collector_of bytes.old marks.old known.old) result (collector_of bytes.new marks.new known.new) }
{
    match Tested::new(bytes, marks, known)?.judge(index, response)? {
        Judgement::Store => store(bytes, marks, known, index, response),
        Judgement::Keep => {}
    }
    Ok(())
}

// What is stored answers, behind the test.
pub fn status_in(
    bytes: &[u8; Collector::CAPACITY],
    marks: &[u8; Collector::PARTS],
    known: &[u8; Collector::KNOWN],
) -> Result<Status, Refusal>
    ensures { said result ≡ standing_stored (collector_of bytes.now marks.now known.now) }
{
    Ok(Tested::new(bytes, marks, known)?.status())
}

// The list, once it is complete, at the start of out.
pub fn list_in(
    bytes: &[u8; Collector::CAPACITY],
    marks: &[u8; Collector::PARTS],
    known: &[u8; Collector::KNOWN],
    out: &mut [u8],
) -> Result<usize, Refusal>
    ensures { Writes (list_stored (collector_of bytes.now marks.now known.now)) result out.old out.new }
{
    match status_in(bytes, marks, known)? {
        Status::Complete(length) => place(&bytes[..length], out),
        Status::Missing(index) => Err(Refusal::Incomplete(index)),
    }
}

// A lent collector takes an answer by the step by value. A refused one is not copied back.
pub fn answer_lent(collector: &mut Collector, index: u8, response: &[u8]) -> Result<(), Refusal>
    ensures { Gives (taking_stored collector.old index response.now) collector.old result collector.new }
{
    let answered = Collector::answer(*collector, index, response);
    answered.verdict?;
    *collector = answered.collector;
    Ok(())
}

impl Collector {
    pub const LAST_INDEX: u8 = 0x3F;

    pub const PART: usize = 16;

    pub const CAPACITY: usize = 1024;

    pub const PARTS: usize = Collector::CAPACITY / Collector::PART;

    pub const KNOWN: usize = 2;

    pub fn fresh() -> Self
        ensures { result ≡ fresh_stored }
    {
        Collector {
            bytes: [0; Collector::CAPACITY],
            marks: [0; Collector::PARTS],
            known: [0; Collector::KNOWN],
        }
    }

    // A refused one is given back as it came.
    pub fn answer(self, index: u8, response: &[u8]) -> Answered
        ensures { Gives (taking_stored self index response.now) self result.verdict result.collector }
    {
        let mut collector = self;
        match answer_in(
            &mut collector.bytes,
            &mut collector.marks,
            &mut collector.known,
            index,
            response,
        ) {
            Ok(()) => Answered {
                verdict: Ok(()),
                collector,
            },
            Err(refusal) => Answered {
                verdict: Err(refusal),
                collector: self,
            },
        }
    }

    pub fn status(self) -> Result<Status, Refusal>
        ensures { said result ≡ standing_stored self }
    {
        status_in(&self.bytes, &self.marks, &self.known)
    }

    pub fn list(self, out: &mut [u8]) -> Result<usize, Refusal>
        ensures { Writes (list_stored self) result out.old out.new }
    {
        list_in(&self.bytes, &self.marks, &self.known, out)
    }
}
