// A collector that passed the test: what every entry works on.
ghost use Rattle.std.specs.Prelude.{true, false, ◌≡◌, length, MatchResult};
ghost use Rattle.base.specs.Outcome.{accepted};
ghost use Rattle.collector.specs.Collector.{capacity, parts};
ghost use Rattle.collector.specs.Shape.{JudgedStored, shape_of};
ghost use Rattle.collector.specs.Stored.{collector_of, known_length, standing_stored, well_stored};

use crate::shape::{Shape, length_by, marks_fit, shape_of, shape_with, well_stored};
use crate::{Collector, Status, start};
use base::refusal::Refusal;

// What is to be done with an answer that is not refused.
#[derive(Drop)]
pub(crate) enum Judgement {
    Store,
    Keep,
}

// Its three arrays, lent, and the shape of its marks.
#[derive(Clone, Copy)]
pub(crate) struct Tested<'a> {
    bytes: &'a [u8; Collector::CAPACITY],
    marks: &'a [u8; Collector::PARTS],
    known: &'a [u8; Collector::KNOWN],
    shape: Shape,
    ghost sized: { (length bytes.now ≡ capacity) × (length marks.now ≡ parts) × (length known.now ≡ known_length) },
    ghost shaped: { shape ≡ shape_of marks.now },
    ghost passes: { well_stored (collector_of bytes.now marks.now known.now) ≡ true },
}

impl<'a> Tested<'a> {
    pub(crate) fn new(
        bytes: &'a [u8; Collector::CAPACITY],
        marks: &'a [u8; Collector::PARTS],
        known: &'a [u8; Collector::KNOWN],
    ) -> Result<Self, Refusal>
        ensures { MatchResult result (λ tested. collector_of tested.bytes.now tested.marks.now tested.known.now ≡ collector_of bytes.now marks.now known.now) (λ refusal. (refusal ≡ Refusal.NoForm) × (well_stored (collector_of bytes.now marks.now known.now) ≡ false)) }
    {
        let shape = shape_of(marks);
        if !well_stored(bytes, marks, known, shape) {
            return Err(Refusal::NoForm);
        }
        Ok(Tested {
            bytes,
            marks,
            known,
            shape,
        })
    }

    pub(crate) fn status(self) -> Status
        ensures { accepted result ≡ standing_stored (collector_of self.entry.bytes.now self.entry.marks.now self.entry.known.now) }
    {
        if self.known[1] == 1 {
            return Status::Complete(length_by(self.marks, self.shape));
        }
        Status::Missing(self.known[0])
    }

    pub(crate) fn judge(self, index: u8, response: &[u8]) -> Result<Judgement, Refusal>
        ensures { JudgedStored (collector_of self.entry.bytes.now self.entry.marks.now self.entry.known.now) index response.now result }
    {
        if Collector::LAST_INDEX < index {
            return Err(Refusal::BadIndex);
        }
        if Collector::PART < response.len() {
            return Err(Refusal::TooMuchData);
        }
        let heard = self.marks[index as usize];
        let mark = (response.len() + 1) as u8;
        if heard == 0 {
            if marks_fit(shape_with(self.shape, index, mark)) {
                return Ok(Judgement::Store);
            }
            return Err(Refusal::Disagrees);
        }
        if heard != mark {
            return Err(Refusal::Disagrees);
        }
        let bytes = self.bytes;
        let at = start(index);
        if &bytes[at..at + response.len()] == response {
            return Ok(Judgement::Keep);
        }
        Err(Refusal::Disagrees)
    }
}
