// chandump between reading and writing: blocks of the input in, the output out, in as many steps as there is room for.
#![tactic(auto)]

ghost use Rattle.std.specs.Prelude.{[], ◌∷◌, length};
ghost use Rattle.base.specs.Outcome.{accepted};
ghost use Rattle.base.specs.Written.{Writes};
ghost use Rattle.dump.specs.Input.{heading, last_line};
ghost use Rattle.stream.specs.Steps.{Steps};
ghost use Rattle.stream.specs.Stream.{Feeds, Replies, ended_lines, fitting};

use base::refusal::Refusal;
use base::written::place;
use collector::Collector;
use dump::{LONGEST, dump};
use lines::newline_from;

// So much is kept of a line that is not ended: one byte more than the longest line has. What is longer is refused
// whatever its tail holds.
pub const LINE: usize = LONGEST + 1;

// How many bytes of a block were taken, and how many bytes of answers were put.
#[derive(Drop)]
pub struct Fed {
    pub taken: usize,
    pub put: usize,
}

// The heading, before anything is read.
pub fn begin(out: &mut [u8]) -> Result<usize, Refusal>
    ensures { Writes (accepted heading) result out.old out.new }
{
    place(b"chandump 1\n", out)
}

// The answer to a line, and a newline behind it.
fn reply(collector: &mut Collector, line: &[u8], out: &mut [u8]) -> Result<usize, Refusal>
    ensures { Replies collector.old (line.now ∷ []) result out.old out.new collector.new }
{
    if out.is_empty() {
        return Err(Refusal::NoRoom);
    }
    let room = out.len() - 1;
    let answer = dump(collector, line, &mut out[..room]);
    let n = answer.written?;
    out[n] = b'\n';
    Ok(n + 1)
}

// The first line of a block, where it is ended there and its answer has room.
fn step(collector: &mut Collector, block: &[u8], out: &mut [u8]) -> Option<Fed>
    ensures { Steps collector.old block.now result out.old out.new collector.new }
{
    let end = newline_from(block, 0);
    if end == block.len() {
        return None;
    }
    let put = reply(collector, &block[..end], out).ok()?;
    Some(Fed {
        taken: end + 1,
        put,
    })
}

// The lines of a block that are ended there are answered where they lie, one after the other, as long as the answers
// have room.
pub fn feed(collector: &mut Collector, block: &[u8], out: &mut [u8]) -> Fed
    ensures { Feeds collector.old (fitting (length out.old) collector.old (ended_lines block.now)) result out.old out.new collector.new }
{
    let mut fed = Fed { taken: 0, put: 0 };
    while let Some(next) = step(collector, &block[fed.taken..], &mut out[fed.put..]) {
        fed.taken += next.taken;
        fed.put += next.put;
    }
    fed
}

// What is left of the input at its end: a last line, which needs no newline, or nothing.
pub fn finish(collector: &mut Collector, rest: &[u8], out: &mut [u8]) -> Result<usize, Refusal>
    ensures { Replies collector.old (last_line rest.now) result out.old out.new collector.new }
{
    if rest.is_empty() {
        return Ok(0);
    }
    reply(collector, rest, out)
}
