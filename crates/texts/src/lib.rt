// The texts of chandump's answers, each at the start of a lent buffer.
#![tactic(auto)]

ghost use Rattle.std.specs.Prelude.{◌+◌, ◌<◌, ◌≤◌, ◌∷◌, ◌≡◌, length};
ghost use Rattle.base.specs.Choice.{◌<?◌};
ghost use Rattle.base.specs.Outcome.{accepted};
ghost use Rattle.base.specs.Written.{Writes};
ghost use Rattle.lines.specs.Lines.{decimal, space};
ghost use Rattle.texts.specs.Appends.{Appends, wrote};
ghost use Rattle.texts.specs.Texts.{access_text, auth_text, block_text, info_text, missing_text, refused_text, state_text, suites_text};

use crate::line::{Hex, Line};
use access::get_channel_access::ChannelAccess;
use auth::AuthType;
use base::refusal::Refusal;
use base::written::place;
use info::get_channel_info::ChannelInfo;
use lines::decimal;

mod line;

pub fn info_text(info: ChannelInfo, out: &mut [u8]) -> Result<usize, Refusal>
    ensures { Writes (accepted (info_text info)) result out.old out.new }
{
    let aux = info.aux_info;
    let mut line = Line::new();
    line.push(b"info ");
    line.show(info.channel);
    line.push(b", ");
    line.show(info.medium_type);
    line.push(b", ");
    line.show(info.protocol_type);
    line.push(b", ");
    line.show(info.session_support);
    line.push(b", ");
    line.show(info.active_sessions as u64);
    line.push(b" active, vendor ");
    line.show(info.vendor_id as u64);
    line.push(b", aux ");
    line.show(Hex(aux.byte1));
    line.push(b" ");
    line.show(Hex(aux.byte2));
    line.place(out)
}

// A state is off where it is DISABLED.
fn state(disabled: bool) -> &'static [u8]
    ensures text { result.now ≡ state_text disabled }
    ensures fits { length result.now ≤ 3 }
{
    if disabled { b"off" } else { b"on" }
}

#[tactic(auto, unfolding(crate::specs::Texts::access_text))]
pub fn access_text(access: ChannelAccess, out: &mut [u8]) -> Result<usize, Refusal>
    ensures { Writes (accepted (access_text access)) result out.old out.new }
{
    let mut line = Line::new();
    line.push(b"access ");
    line.show(access.access_mode);
    line.push(b", alerting ");
    line.push(state(access.alerting_disabled));
    line.push(b", per-message ");
    line.push(state(access.per_msg_auth_disabled));
    line.push(b", user-level ");
    line.push(state(access.user_level_auth_disabled));
    line.push(b", limit ");
    line.show(access.privilege_level_limit);
    line.place(out)
}

// The type's name, or - for none.
#[tactic(auto, unfolding(crate::specs::Texts::auth_text))]
pub fn auth_text(best: Option<AuthType>, out: &mut [u8]) -> Result<usize, Refusal>
    ensures { Writes (accepted (auth_text best)) result out.old out.new }
{
    let mut line = Line::new();
    line.push(b"auth ");
    match best {
        Some(kind) => line.show(kind),
        None => line.push(b"-"),
    }
    line.place(out)
}

#[tactic(auto, unfolding(crate::specs::Texts::block_text))]
pub fn block_text(index: u8, n: usize, out: &mut [u8]) -> Result<usize, Refusal>
    ensures { Writes (accepted (block_text index n)) result out.old out.new }
{
    let mut line = Line::new();
    line.push(b"block ");
    line.show(index as u64);
    line.push(b", ");
    line.show(n as u64);
    line.push(b" bytes");
    line.place(out)
}

#[tactic(auto, unfolding(crate::specs::Texts::refused_text))]
pub fn refused_text(n: u8, out: &mut [u8]) -> Result<usize, Refusal>
    ensures { Writes (accepted (refused_text n)) result out.old out.new }
{
    let mut line = Line::new();
    line.push(b"refused ");
    line.show(n as u64);
    line.place(out)
}

#[tactic(auto, unfolding(crate::specs::Texts::missing_text))]
pub fn missing_text(n: u8, out: &mut [u8]) -> Result<usize, Refusal>
    ensures { Writes (accepted (missing_text n)) result out.old out.new }
{
    let mut line = Line::new();
    line.push(b"missing ");
    line.show(n as u64);
    line.place(out)
}

// Where a piece ends that was written from a place on.
fn past(at: usize, written: Result<usize, Refusal>) -> usize
    requires { at + wrote written < 18446744073709551616 }
    ensures { result ≡ at + wrote written }
{
    at + written.unwrap_or(0)
}

fn put(piece: &[u8], into: &mut [u8], at: usize) -> usize
    requires { at + length piece.now ≤ length into.old }
    ensures { Appends piece.now into.old at into.new result }
{
    let written = place(piece, &mut into[at..]);
    past(at, written)
}

// A number and the space before it.
fn put_spaced(n: u8, into: &mut [u8], at: usize) -> usize
    requires { at + length (space ∷ decimal n) ≤ length into.old }
    ensures { Appends (space ∷ decimal n) into.old at into.new result }
{
    let first = put(b" ", into, at);
    let written = decimal(n as u64, &mut into[first..]);
    past(first, written)
}

// How many bytes a number and the space before it take.
fn width(n: u8) -> usize
    ensures { result ≡ length (space ∷ decimal n) }
{
    if n < 10 {
        return 2;
    }
    if n < 100 {
        return 3;
    }
    4
}

// Whether so much room is too little for the text.
fn lacks(numbers: &[u8], room: usize) -> bool
    ensures { result ≡ (room <? length (suites_text numbers.now)) }
{
    if room < 6 {
        return true;
    }
    let mut left = room - 6;
    for n in numbers {
        let wide = width(*n);
        if left < wide {
            return true;
        }
        left -= wide;
    }
    false
}

// A list of any length: it is measured before it is written.
pub fn suites_text(numbers: &[u8], out: &mut [u8]) -> Result<usize, Refusal>
    ensures { Writes (accepted (suites_text numbers.now)) result out.old out.new }
{
    if lacks(numbers, out.len()) {
        return Err(Refusal::NoRoom);
    }
    let mut at = put(b"suites", out, 0);
    for n in numbers {
        at = put_spaced(*n, out, at);
    }
    Ok(at)
}
