// Answers recorded questions, a line each, from the port: tests/form/README.md has the form of a question and of its answer,
// tests/oracle and tests/model what the Rust crate and the models answer.
#![tactic(auto)]

ghost use Rattle.std.specs.Prelude.{◌≤◌, length};

use crate::question::answer;
use base::little::bytes;
use base::text::digit;
use lines::{kept, newline_from};
use std::io;
use std::io::{Read, Write};

mod arguments;
mod calls;
mod channel_suites;
mod leaves;
mod question;
mod requests;
mod responses;
mod settings;

// The most bytes that a question lends.
const LENT: usize = 2048;

// What lent bytes are before a call.
const FILL: u8 = 0xEE;

// So much of a line is answered, and kept of one that is not ended: 4,096 bytes are no hex pairs, so what is longer is no
// question, whatever is left out of it.
const LINE: usize = 4096;

// What is read at a time.
const BLOCK: usize = 0x1_0000;

// The number and the lent bytes as hex pairs, and the newline.
const TEXT: usize = 3 * (8 + LENT) + 1;

// Hex pairs, one space before each, and a newline. The number is written by itself, before the lent bytes.
fn shown(rt: HostRuntime, number: u64, lent: &[u8]) -> io::Result<()>
    requires { length lent.now ≤ LENT }
{
    let mut text = [b'\n'; TEXT];
    let number = bytes::<8>(number);
    for (pair, byte) in text.chunks_exact_mut(3).zip(number.iter().chain(lent)) {
        pair.copy_from_slice(&[b' ', digit(*byte / 16), digit(*byte)]);
    }
    let (number, rest) = text.split_at(3 * 8);
    rt.stdout().write_all(number)?;
    rt.stdout().write_all(&rest[..3 * lent.len() + 1])
}

fn answered(rt: HostRuntime, line: &[u8]) -> io::Result<()> {
    let mut lent = [FILL; LENT];
    let said = answer(&line[..line.len().min(LINE)], &mut lent);
    shown(rt, said.number, &lent[..said.room])
}

// Where the next line ends: the library's search goes over many bytes at a step.
fn end_of(block: &[u8], at: usize) -> usize
    requires { at ≤ length block.now }
    ensures { (at ≤ result) × (result ≤ length block.now) }
{
    newline_from(block, at)
}

// The lines of a block that are ended there are answered where they lie. Where its rest begins.
fn fed(rt: HostRuntime, block: &[u8]) -> io::Result<usize> {
    let mut at = 0;
    // A line takes a byte of the block at least.
    for _ in 0..block.len() {
        let end = end_of(block, at);
        if end == block.len() {
            break;
        }
        answered(rt, &block[at..end])?;
        at = end + 1;
    }
    Ok(at)
}

// As much as there is room for, or as the input has: nothing is answered before that, so that a partner can write as much before
// it reads. A read that fails ends it.
fn read_full(rt: HostRuntime, room: &mut [u8]) -> usize
    ensures { result ≤ length room.old }
{
    let mut done: usize = 0;
    while done < room.len() {
        let n = rt.stdin().read(&mut room[done..]).unwrap_or(0);
        if n == 0 {
            return done;
        }
        done += n;
    }
    done
}

fn main(rt: HostRuntime) -> io::Result<()> {
    let mut block = [0; BLOCK];
    let mut used: usize = 0;
    for _ in 0..u64::MAX {
        let n = read_full(rt, &mut block[used..]);
        if n == 0 {
            break;
        }
        let end = used + n;
        let at = fed(rt, &block[..end])?;
        used = kept(&mut block, at, end, LINE);
    }
    // A last line that no newline ends.
    if used != 0 {
        answered(rt, &block[..used])?;
    }
    Ok(())
}
