// chandump but for reading and writing: a line and a collector in, the answering line and the collector out.
#![tactic(auto)]

ghost use Rattle.std.specs.Prelude.{◌<◌, ◌≤◌, ◌≡◌, length};
ghost use Rattle.auth.specs.GetChannelAuthenticationCapabilities.{best_auth, capabilities_of};
ghost use Rattle.base.specs.Outcome.{accepted};
ghost use Rattle.base.specs.Refusal.{row};
ghost use Rattle.base.specs.Written.{Writes};
ghost use Rattle.access.specs.GetChannelAccess.{access_of};
ghost use Rattle.collector.specs.Collector.{capacity};
ghost use Rattle.collector.specs.Stored.{list_stored};
ghost use Rattle.info.specs.GetChannelInfo.{info_of};
ghost use Rattle.suites.specs.GetChannelCipherSuites.{numbers_of};
ghost use Rattle.texts.specs.Texts.{access_text, auth_text, block_text, info_text, suites_text};
ghost use Rattle.dump.specs.Dump.{Answers, Says, answering, ending, heard, listed, refusing, saying, shown, word_of};

use access::get_channel_access::ChannelAccess;
use auth::get_channel_authentication_capabilities::ChannelAuthenticationCapabilities;
use base::refusal::Refusal;
use base::written::place;
use collector::{Collector, Status, answer_in, status_in};
use info::get_channel_info::ChannelInfo;
use lines::read_pairs;
use suites::get_channel_cipher_suites::suite_numbers;
use texts::{
    access_text, auth_text, block_text, info_text, missing_text, refused_text, suites_text,
};

// A line is at most so long.
pub const LONGEST: usize = 256;

const LETTERS: usize = 3;

// More pairs than the longest line has.
const PAIRS: usize = 96;

// More than the text of an accepted part takes.
const BLOCK: usize = 64;

// What an answering line says, by its first word.
#[derive(Drop)]
pub enum Kind {
    Info,
    Access,
    Auth,
    Block,
    Suites,
    Missing,
    Refused,
}

// The answer to a line: its kind, and what became of its text. The kind is told also where the text has no room.
#[derive(Drop)]
pub struct Answered {
    pub kind: Kind,
    pub written: Result<usize, Refusal>,
}

#[derive(Drop)]
enum Word {
    Inf,
    Acc,
    Cap,
    Sui,
    End,
    Other,
}

#[tactic(auto, unfolding(crate::specs::Dump::word_of))]
fn word_of(line: &[u8]) -> Word
    ensures { result ≡ word_of line.now }
{
    if line.starts_with(b"inf") {
        return Word::Inf;
    }
    if line.starts_with(b"acc") {
        return Word::Acc;
    }
    if line.starts_with(b"cap") {
        return Word::Cap;
    }
    if line.starts_with(b"sui") {
        return Word::Sui;
    }
    if line.starts_with(b"end") {
        return Word::End;
    }
    Word::Other
}

fn refused(refusal: Refusal, out: &mut [u8]) -> Answered
    ensures { Says (refusing (row refusal).0) result out.old out.new }
{
    Answered {
        kind: Kind::Refused,
        written: refused_text(refusal.number(), out),
    }
}

// Three functions, each of them its reader and its text: one generic would only pass the two on.

fn info(response: &[u8], out: &mut [u8]) -> Answered
    ensures { Says (shown Kind.Info info_text (info_of response.now)) result out.old out.new }
{
    match ChannelInfo::parse(response) {
        Ok(info) => Answered {
            kind: Kind::Info,
            written: info_text(info, out),
        },
        Err(refusal) => refused(refusal, out),
    }
}

fn access(response: &[u8], out: &mut [u8]) -> Answered
    ensures { Says (shown Kind.Access access_text (access_of response.now)) result out.old out.new }
{
    match ChannelAccess::parse(response) {
        Ok(access) => Answered {
            kind: Kind::Access,
            written: access_text(access, out),
        },
        Err(refusal) => refused(refusal, out),
    }
}

fn capabilities(response: &[u8], out: &mut [u8]) -> Answered
    ensures { Says (shown Kind.Auth (λ c. auth_text (best_auth c)) (capabilities_of response.now)) result out.old out.new }
{
    match ChannelAuthenticationCapabilities::parse(response) {
        Ok(capabilities) => Answered {
            kind: Kind::Auth,
            written: auth_text(capabilities.best_auth(), out),
        },
        Err(refusal) => refused(refusal, out),
    }
}

fn suites(list: &[u8], out: &mut [u8]) -> Result<usize, Refusal>
    requires { length list.now ≤ capacity }
    ensures { Writes (accepted (suites_text (numbers_of list.now))) result out.old out.new }
{
    let mut numbers = [0u8; Collector::CAPACITY];
    let n = suite_numbers(list, &mut numbers).unwrap();
    suites_text(&numbers[..n], out)
}

// The suites of the list, or what is missing of it.
fn list(collector: &Collector, out: &mut [u8]) -> Answered
    ensures { Says (listed (list_stored collector.now)) result out.old out.new }
{
    match status_in(&collector.bytes, &collector.marks, &collector.known) {
        Ok(Status::Complete(length)) => Answered {
            kind: Kind::Suites,
            written: suites(&collector.bytes[..length], out),
        },
        Ok(Status::Missing(index)) => Answered {
            kind: Kind::Missing,
            written: missing_text(index, out),
        },
        Err(refusal) => refused(refusal, out),
    }
}

// The collector starts afresh once its text is written.
fn end(collector: &mut Collector, out: &mut [u8]) -> Answered
    ensures { Answers (ending collector.old) result out.old out.new collector.old collector.new }
{
    let answered = list(collector, out);
    if answered.written.is_ok() {
        *collector = Collector::fresh();
    }
    answered
}

// The answer where the text of an accepted part has no room: tried on a copy.
fn without_room(collector: &Collector, index: u8, response: &[u8], out: &mut [u8]) -> Answered
    requires { length out.old < length (block_text index (length response.now)) }
    ensures { Says (heard collector.now index response.now).said result out.old out.new }
{
    let mut copy = *collector;
    match answer_in(
        &mut copy.bytes,
        &mut copy.marks,
        &mut copy.known,
        index,
        response,
    ) {
        Ok(()) => Answered {
            kind: Kind::Block,
            written: Err(Refusal::NoRoom),
        },
        Err(refusal) => refused(refusal, out),
    }
}

fn hear(collector: &mut Collector, index: u8, response: &[u8], out: &mut [u8]) -> Answered
    ensures { Answers (heard collector.old index response.now) result out.old out.new collector.old collector.new }
{
    let mut text = [0u8; BLOCK];
    let n = block_text(index, response.len(), &mut text).unwrap();
    if out.len() < n {
        return without_room(collector, index, response, out);
    }
    match answer_in(
        &mut collector.bytes,
        &mut collector.marks,
        &mut collector.known,
        index,
        response,
    ) {
        Ok(()) => Answered {
            kind: Kind::Block,
            written: place(&text[..n], out),
        },
        Err(refusal) => refused(refusal, out),
    }
}

fn say(collector: &mut Collector, word: Word, pairs: &[u8], out: &mut [u8]) -> Answered
    ensures { Answers (saying collector.old word pairs.now) result out.old out.new collector.old collector.new }
{
    match (word, pairs) {
        (Word::Inf, response) => info(response, out),
        (Word::Acc, response) => access(response, out),
        (Word::Cap, response) => capabilities(response, out),
        (Word::Sui, [index, response @ ..]) => hear(collector, *index, response, out),
        (Word::End, []) => end(collector, out),
        _ => refused(Refusal::BadLine, out),
    }
}

// The answer to a line at the start of out, without a newline, and the collector behind the line.
pub fn dump(collector: &mut Collector, line: &[u8], out: &mut [u8]) -> Answered
    ensures { Answers (answering collector.old line.now) result out.old out.new collector.old collector.new }
{
    if LONGEST < line.len() {
        return refused(Refusal::BadLine, out);
    }
    if line.len() < LETTERS {
        return refused(Refusal::BadLine, out);
    }
    let mut pairs = [0u8; PAIRS];
    let Ok(n) = read_pairs(&line[LETTERS..], &mut pairs) else {
        return refused(Refusal::BadLine, out);
    };
    say(collector, word_of(line), &pairs[..n], out)
}
