// One question, and a sweep: questions that differ in a few bytes, answered by one hash.
ghost use Rattle.std.specs.Prelude.{◌<◌, ◌≤◌, length};

use crate::calls::{BAD, call};
use crate::{FILL, LENT};
use base::little::{bytes, number};
use lines::read_pairs;

// As many pairs as a line can hold.
const PAIRS: usize = 1365;

// The first byte of a sweep, in the place of a function.
const SWEEP: u8 = 0xFF;

// The arguments of a question begin here, behind the function and the room.
const ARGUMENTS: usize = 3;

// The letters of a sweep begin here, behind its mark, the place, how many bytes run and how many letters there are.
const LETTERS: usize = 4;

// The most bytes of a question that is swept.
const SWEPT: usize = 64;

// The number, and how many bytes were lent.
#[derive(Drop)]
pub(crate) struct Said {
    pub(crate) number: u64,
    pub(crate) room: usize,
}

fn alone(number: u64) -> Said
    ensures { result.room ≤ 0 }
{
    Said { number, room: 0 }
}

fn asked(question: &[u8], lent: &mut [u8]) -> Said
    ensures { result.room ≤ length lent.old }
{
    let [function, low, high, arguments @ ..] = question else {
        return alone(BAD);
    };
    let room = number([*low, *high, 0, 0]) as usize;
    if lent.len() < room {
        return alone(BAD);
    }
    Said {
        number: call(*function, arguments, &mut lent[..room]),
        room,
    }
}

// FNV-1a, 32 bits.
fn hashed(bytes: &[u8], before: u32) -> u32 {
    let mut hash = before;
    for byte in bytes {
        hash = (hash ^ *byte as u32).wrapping_mul(16777619);
    }
    hash
}

// The hash of the answers so far, and of the one to this question.
fn hashed_answer(question: &[u8], before: u32) -> u32 {
    let mut lent = [FILL; LENT];
    let said = asked(question, &mut lent);
    let hash = hashed(&bytes::<8>(said.number), before);
    hashed(&lent[..said.room], hash)
}

// No letters: all bytes.
fn base_of(letters: &[u8]) -> usize
    ensures { 0 < result }
{
    if letters.is_empty() {
        return 256;
    }
    letters.len()
}

fn letter(letters: &[u8], i: usize) -> u8 {
    let n = i % base_of(letters);
    match letters.get(n) {
        Some(letter) => *letter,
        None => (n % 256) as u8,
    }
}

// The digits of `i` in letters, the last the lowest.
fn spelled(i: usize, letters: &[u8], digits: &mut [u8]) {
    let mut rest = i;
    for digit in digits.iter_mut().rev() {
        *digit = letter(letters, rest);
        rest /= base_of(letters);
    }
}

// From the place on as many bytes of the question run as are said, one to three. A longer question than is swept is none.
fn run(place: u8, running: u8, letters: &[u8], question: &mut [u8]) -> u64 {
    let begin = ARGUMENTS + place as usize;
    let end = begin + running as usize;
    if question.len() < end {
        return BAD;
    }
    if SWEPT < question.len() {
        return BAD;
    }
    if !matches!(running, 1..=3) {
        return BAD;
    }
    let mut hash: u32 = 2166136261;
    for i in 0..base_of(letters).saturating_pow(running as u32) {
        spelled(i, letters, &mut question[begin..end]);
        hash = hashed_answer(question, hash);
    }
    hash as u64
}

// The hash of the answers to all questions of a sweep.
fn swept(sweep: &mut [u8]) -> u64 {
    let &mut [_, place, running, letters, ..] = sweep else {
        return BAD;
    };
    let Some((head, question)) = sweep.split_at_mut_checked(LETTERS + letters as usize) else {
        return BAD;
    };
    run(place, running, &head[LETTERS..], question)
}

// What is answered to a line. The lent bytes are all `FILL`.
pub(crate) fn answer(line: &[u8], lent: &mut [u8]) -> Said
    ensures { result.room ≤ length lent.old }
{
    let mut bytes = [0; PAIRS];
    let Ok(n) = read_pairs(line, &mut bytes) else {
        return alone(BAD);
    };
    let question = &mut bytes[..n];
    if let [SWEEP, ..] = question {
        return alone(swept(question));
    }
    asked(question, lent)
}
