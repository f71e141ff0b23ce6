// chandump: a heading, then the answer to each line of standard input. What is answered is worked out by `stream`; here
// it is read and written. What a read brought is answered before the next read.
#![tactic(auto)]

ghost use Rattle.std.specs.Prelude.{[], ◌<◌, ◌≤◌, ◌≡◌, IfOk, IfSome, length, take};
ghost use Rattle.collector.specs.Collector.{held};
ghost use Rattle.collector.specs.Histories.{Typed};
ghost use Rattle.collector.specs.Stored.{fresh_stored};
ghost use Rattle.dump.specs.Input.{Line};
ghost use Rattle.stream.specs.Stream.{Reached, limit};
ghost use Rattle.chandump.specs.Run.{Answered, Ended, Ran, Ready, Whole};

use collector::Collector;
use lines::kept;
use std::env::{Env, FillError};
use std::io::{Error, ErrorKind, Read, Write};
use std::thread;
use std::time::Duration;
use stream::{Fed, LINE, begin, feed, finish};

// A proved loop has to end, and nothing says that the input does, or that a file that does not block is ever ready: a loop
// makes at most so many calls, which no run uses up.
const CALLS: u64 = 0x0100_0000_0000;

// What is read at a time, and the room for answers.
const BLOCK: usize = 0x1_0000;

// What ends the program before the input ends: a fault of reading or of writing, or the calls are used up.
#[derive(Drop)]
enum Fault {
    Input(Error),
    Output(Error),
    Calls,
}

// A millisecond.
fn pause(rt: HostRuntime) {
    thread::sleep(&rt, Duration::from_millis(1));
}

// Is the call that failed to be tried again? After a signal at once; where a file that does not block has nothing or no
// room, after a pause.
fn again(rt: HostRuntime, error: Error) -> bool {
    let kind = error.kind();
    if kind == ErrorKind::WouldBlock {
        pause(rt);
        return true;
    }
    kind == ErrorKind::Interrupted
}

// A line on standard error; where that cannot be written either, there is nobody to tell. A pipe that nobody reads any more
// is no fault.
fn tell(rt: HostRuntime, what: &str, error: Error) {
    if error.kind() == ErrorKind::BrokenPipe {
        return;
    }
    let _ = eprintln!(rt; "chandump: {what}: {error}");
}

// A text is written whole: how many bytes of it were.
fn written(rt: HostRuntime, text: &[u8]) -> Result<usize, Fault>
    ensures { IfOk result (λ n. n ≡ length text.now) }
{
    let mut done = 0;
    for _ in 0..CALLS {
        let part = &text[done..];
        if part.is_empty() {
            return Ok(done);
        }
        match rt.stdout().write(part) {
            Ok(0) => pause(rt),
            Ok(taken) => done += taken,
            Err(error) => {
                if !again(rt, error) {
                    return Err(Fault::Output(error));
                }
            }
        }
    }
    Err(Fault::Calls)
}

// A read: how many bytes it brought, 0 at the end of the input; nothing where it is to be tried again.
fn receive(rt: HostRuntime, block: &mut [u8]) -> Result<Option<usize>, Fault>
    ensures { IfOk result (λ got. IfSome got (λ n. n ≤ length block.old)) }
{
    match rt.stdin().read(block) {
        Ok(n) => Ok(Some(n)),
        Err(error) => {
            if again(rt, error) {
                return Ok(None);
            }
            Err(Fault::Input(error))
        }
    }
}

// What the machine's arrays are: nothing runs here.
fn typed(bytes: [u8; Collector::CAPACITY], marks: [u8; Collector::PARTS])
    ensures { Typed (held bytes marks) }
{}

// The heading is written, before anything is read.
fn begun(rt: HostRuntime, out: &mut [u8; BLOCK]) -> Result<usize, Fault>
    ensures { IfOk result (λ put. Reached [] (take put out.new) [] fresh_stored) }
{
    let heading = begin(out).unwrap();
    written(rt, &out[..heading])
}

// Lines of a block are answered, as many as have room, and the answers written.
fn some(
    rt: HostRuntime,
    collector: &mut Collector,
    block: &[u8],
    out: &mut [u8; BLOCK],
) -> Result<Fed, Fault>
    ensures { IfOk result (λ fed. Answered block.now fed out.new collector.old collector.new) }
{
    typed(collector.bytes, collector.marks);
    let fed = feed(collector, block, out);
    let put = written(rt, &out[..fed.put])?;
    Ok(Fed {
        taken: fed.taken,
        put,
    })
}

// All lines of a block: how many bytes they are.
fn all(
    rt: HostRuntime,
    collector: &mut Collector,
    block: &[u8],
    out: &mut [u8; BLOCK],
) -> Result<usize, Fault>
    requires { Ran block.now collector.old }
    ensures { IfOk result (λ at. Whole block.now at collector.new) }
{
    let mut at = 0;
    // A turn tells only behind its answers that no line was left.
    loop {
        let fed = some(rt, collector, &block[at..], out)?;
        if fed.taken == 0 {
            return Ok(at);
        }
        at += fed.taken;
    }
}

// What was read up to a place is answered, and what is left of it kept, at the start of the block: how many bytes.
fn answer(
    rt: HostRuntime,
    collector: &mut Collector,
    block: &mut [u8],
    end: usize,
    out: &mut [u8; BLOCK],
) -> Result<usize, Fault>
    requires { Ran (take end block.old) collector.old × ((end ≤ length block.old) × (limit < length block.old)) }
    ensures { IfOk result (λ held. Ready held block.new collector.new) }
{
    let at = all(rt, collector, &block[..end], out)?;
    Ok(kept(block, at, end, LINE))
}

// The end of the input: a last line, which needs no newline.
fn last(
    rt: HostRuntime,
    collector: &mut Collector,
    rest: &[u8],
    out: &mut [u8; BLOCK],
) -> Result<usize, Fault>
    requires { Ran rest.now collector.old × Line rest.now }
    ensures { IfOk result (λ put. Ended put out.new) }
{
    typed(collector.bytes, collector.marks);
    let put = finish(collector, rest, out).unwrap();
    written(rt, &out[..put])
}

// A read, and all that it brought: how many bytes of an unfinished line are held then; nothing at the end of the input.
fn once(
    rt: HostRuntime,
    collector: &mut Collector,
    held: usize,
    block: &mut [u8],
    out: &mut [u8; BLOCK],
) -> Result<Option<usize>, Fault>
    requires { Ready held block.old collector.old }
    ensures { IfOk result (λ left. IfSome left (λ held. Ready held block.new collector.new)) }
{
    match receive(rt, &mut block[held..])? {
        None => Ok(Some(held)),
        Some(0) => {
            last(rt, collector, &block[..held], out)?;
            Ok(None)
        }
        Some(n) => Ok(Some(answer(rt, collector, block, held + n, out)?)),
    }
}

fn run(
    rt: HostRuntime,
    collector: &mut Collector,
    block: &mut [u8],
    out: &mut [u8; BLOCK],
) -> Result<(), Fault>
    requires { (collector.old ≡ fresh_stored) × (limit < length block.old) }
{
    begun(rt, out)?;
    let mut held = 0;
    for _ in 0..CALLS {
        let Some(left) = once(rt, collector, held, block, out)? else {
            return Ok(());
        };
        held = left;
    }
    Err(Fault::Calls)
}

const PAGE: &[u8] =
    b"chandump shows what an IPMI management controller said of a channel. It takes no argument: it reads lines from
standard input and answers each with a line.

A line is a word, then hex pairs, one space before each:

    inf RESPONSE          Get Channel Info
    acc RESPONSE          Get Channel Access
    cap RESPONSE          Get Channel Authentication Capabilities: the best type offered
    sui INDEX RESPONSE    Get Channel Cipher Suites: a part of the list
    end                   the suites of the list, or the part that is missing; then a fresh list

A line that is refused is answered \"refused\" and a number:

    1     the response is too short, or names no channel
    2     a part of the list is above 16 bytes
    7     an index is above 3F
    12    no list explains this part and those before it
    14    the line has another form, or is above 256 bytes
";

// Is there an argument? Of what it says nothing is taken.
fn asked(rt: HostRuntime) -> bool {
    match rt.arg(1, &mut []) {
        Err(FillError::NotPresent) => false,
        _ => true,
    }
}

// A page where an argument asks for it, or the answers.
fn said(rt: HostRuntime) -> Result<(), Fault> {
    if asked(rt) {
        written(rt, PAGE)?;
        return Ok(());
    }
    let mut collector = Collector::fresh();
    let mut block = [0u8; BLOCK];
    let mut out = [0u8; BLOCK];
    run(rt, &mut collector, &mut block, &mut out)
}

fn main(rt: HostRuntime) {
    match said(rt) {
        Err(Fault::Input(error)) => tell(rt, "standard input", error),
        Err(Fault::Output(error)) => tell(rt, "standard output", error),
        _ => {}
    }
}
