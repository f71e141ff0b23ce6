// What stands in a line: hex pairs, numbers; where a line ends; what is kept of a block.
#![tactic(auto)]

ghost use Rattle.std.specs.Prelude.{◌≡◌, length, take, ℕ, ◌+◌, ◌-◌, ◌<◌, ◌≤◌, max, min, if◌then◌else◌};
ghost use Rattle.base.specs.Choice.{if◌from◌to◌then◌else◌, ◌=?◌};
ghost use Rattle.base.specs.Outcome.{accepted, is_accepted};
ghost use Rattle.base.specs.Text.{hex2};
ghost use Rattle.base.specs.Written.{Writes};
ghost use Rattle.lines.specs.Lines.{Keeps, between, decimal, digit_of, newline, newline_from, pair_of, pairs_of, space};

use base::refusal::Refusal;
use base::text::digit;
use base::written::place;
use itoa::Buffer;
use memchr::memchr;

// 0 of a space, 1 of what is none.
fn no_space(byte: u8) -> u8
    ensures { result ≡ (if byte =? space then 0 else 1) }
{
    if byte == b' ' {
        return 0;
    }
    1
}

// 0 of a byte of the range, or the other number.
fn within(byte: u8, first: u8, last: u8, other: u8) -> u8
    ensures { result ≡ (if byte from first to last then 0 else other) }
{
    if byte < first {
        return other;
    }
    if last < byte {
        return other;
    }
    0
}

// 0 of a digit, 2 of what is none. Numbers are chosen, so that no branch is taken; with 1, as of what is no space, the
// compiler would make the larger of two faults a choice again, and no vector code.
fn no_digit(byte: u8) -> u8
    ensures { result ≡ (if is_accepted (digit_of byte) then 0 else 2) }
{
    let small = within(byte, b'a', b'f', 2);
    let letter = within(byte, b'A', b'F', small);
    within(byte, b'0', b'9', letter)
}

// 0 of a space if the byte three before is one, and of a digit if it is none.
fn strays(before: u8, byte: u8) -> u8
    ensures { result ≡ (if before =? space then (if byte =? space then 0 else 1) else (if is_accepted (digit_of byte) then 0 else 2)) }
{
    if before == b' ' {
        return no_space(byte);
    }
    no_digit(byte)
}

// The first three bytes are held to a pair, each further one to the byte three before it. The bytes lie side by side, and the
// loop has no way out but its end: vector code.
fn are_pairs(text: &[u8]) -> bool
    ensures { result ≡ is_accepted (pairs_of text.now) }
{
    let n = text.len();
    if n % 3 != 0 {
        return false;
    }
    if n == 0 {
        return true;
    }
    let mut worst = no_space(text[0]).max(no_digit(text[1]).max(no_digit(text[2])));
    for i in 3..n {
        worst = worst.max(strays(text[i - 3], text[i]));
    }
    worst == 0
}

// A digit's value: the low half of its byte, and nine more of a letter.
fn value(byte: u8) -> u8
    ensures { (result < 16) × ((n : ℕ) → digit_of byte ≡ accepted n → result ≡ n) }
{
    (byte % 16 + 9 * (byte / 64)) % 16
}

// The byte of a pair.
fn joined(high: u8, low: u8) -> u8
    ensures { (before n : ℕ) → pair_of before high low ≡ accepted n → result ≡ n }
{
    16 * value(high) + value(low)
}

// The bytes of a text that is hex pairs and nothing else, one space before each. It is read to its end before a byte
// is written.
pub fn read_pairs(text: &[u8], out: &mut [u8]) -> Result<usize, Refusal>
    ensures { Writes (pairs_of text.now) result out.old out.new }
{
    if !are_pairs(text) {
        return Err(Refusal::BadLine);
    }
    let n = text.len() / 3;
    if out.len() < n {
        return Err(Refusal::NoRoom);
    }
    for i in 0..n {
        out[i] = joined(text[3 * i + 1], text[3 * i + 2]);
    }
    Ok(n)
}

// A byte as two digits.
pub fn hex(byte: u8, out: &mut [u8]) -> Result<usize, Refusal>
    ensures { Writes (accepted (hex2 byte)) result out.old out.new }
{
    place(&[digit(byte / 16), digit(byte)], out)
}

// Most numbers have one digit or two, which are counted from '0' on.
pub fn decimal(n: u64, out: &mut [u8]) -> Result<usize, Refusal>
    ensures { Writes (accepted (decimal n)) result out.old out.new }
{
    if n < 10 {
        return place(&[b'0' + n as u8], out);
    }
    if n < 100 {
        return place(&[b'0' + (n / 10) as u8, b'0' + (n % 10) as u8], out);
    }
    let mut buffer = Buffer::new();
    place(buffer.format(n).as_bytes(), out)
}

// Where the next newline stands from a place on, or the end.
pub fn newline_from(block: &[u8], at: usize) -> usize
    ensures { result ≡ newline_from block.now at }
{
    if block.len() < at {
        return block.len();
    }
    match memchr(b'\n', &block[at..]) {
        Some(n) => at + n,
        None => block.len(),
    }
}

// What a block has from a place up to another, at most so many bytes of it, moves to the block's start: the rest of a
// block, behind which the next one is read.
pub fn kept(block: &mut [u8], at: usize, end: usize, most: usize) -> usize
    ensures { Keeps (take most (between at end block.old)) result block.old block.new }
{
    let n = most.min(end.min(block.len()).saturating_sub(at));
    if n == 0 {
        return 0;
    }
    block.copy_within(at..at + n, 0);
    n
}
