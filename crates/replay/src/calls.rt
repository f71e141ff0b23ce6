// The functions by their numbers: tests/oracle/README.md and tests/model/README.md have a row for each. A question of any other
// number, or with another number of arguments, is refused 14.
use crate::arguments::{
    activation_request, by_suite_request, set_access_apply, set_access_request, suite_of,
    tagged_step, tagged_write,
};
use crate::channel_suites::{by_suite_read, by_suite_written, joined_suites};
use crate::leaves::{
    auth_type, authentication, channel, channel_number, confidentiality, integrity, privilege,
    unit, unit_low,
};
use crate::requests::{
    access_read, activation_read, capabilities_read, challenge_name, challenge_read, info_read,
    suites_read,
};
use crate::responses::{
    access_written, best_auth, capabilities_written, info_written, is_disabled, suite,
    suite_confidentiality, suite_steps, suites_part, suites_written,
};
use crate::settings::{set_applied, set_written};
use base::little::number;
use base::refusal::Refusal;
use capi::display::{
    ghj_auth_type_name, ghj_channel_text, ghj_limit_text, ghj_medium_text, ghj_mode_text,
    ghj_protocol_text, ghj_session_support_text,
};
use capi::list::ghj_suite_numbers;
use capi::requests::{
    ghj_access_request, ghj_capabilities_request, ghj_challenge_request, ghj_info_request,
    ghj_suites_request,
};
use capi::responses::{
    ghj_access, ghj_activation, ghj_by_suite, ghj_capabilities, ghj_challenge, ghj_info, ghj_suites,
};
use capi::settings::ghj_set_access;
use capi::strength::ghj_compare_strength;
use capi::table::ghj_suite_algorithms;
use capi::tagged_records::{ghj_tagged_listing, ghj_tagged_numbers};

// Refusal 14, as C gets it.
pub(crate) const BAD: u64 = 0x8000_0000_0000_000E;

// GHJ_NONE.
pub(crate) const NONE: usize = 0x4000_0000_0000_0000;

// Two parts of a number.
pub(crate) fn two(low: u8, high: u8) -> usize {
    number([low, high, 0, 0]) as usize
}

// As C gets it. No refusal that is asked for here carries more than a byte.
fn refused(refusal: Refusal) -> u64 {
    let carried = refusal.carried();
    if 255 < carried {
        return BAD;
    }
    0x8000_0000_0000_0000 + (refusal.number() as u64) + 256 * (carried as u64)
}

fn code(answer: Result<usize, Refusal>) -> u64 {
    match answer {
        Ok(number) => number as u64,
        Err(refusal) => refused(refusal),
    }
}

fn or_none(answer: Option<usize>) -> u64 {
    answer.unwrap_or(NONE) as u64
}

// Bytes, those of a response or of a list.
fn of_response(f: u8, a: &[u8], out: &mut [u8]) -> u64 {
    match f {
        0x01 => ghj_access(a, out),
        0x02 => ghj_info(a, out),
        0x03 => ghj_capabilities(a, out),
        0x04 => ghj_challenge(a, out),
        0x05 => ghj_activation(a, out),
        0x06 => ghj_suites(a, out),
        0x07 => ghj_suite_numbers(a, out),
        0x08 => code(is_disabled(a)),
        0x09 => code(best_auth(a)),
        0x0A => code(access_written(a, out)),
        0x0B => code(info_written(a, out)),
        0x0C => code(capabilities_written(a, out)),
        0x0D => code(suites_part(a, out)),
        0x0E => code(suites_written(a, out)),
        0x0F => suite_steps(a, out) as u64,
        _ => BAD,
    }
}

// Bytes, those of a request.
fn of_request(f: u8, a: &[u8], out: &mut [u8]) -> u64 {
    match f {
        0x10 => code(access_read(a)),
        0x11 => code(info_read(a)),
        0x12 => code(capabilities_read(a)),
        0x13 => code(challenge_read(a, out)),
        0x14 => code(activation_read(a, out)),
        0x15 => code(suites_read(a)),
        _ => BAD,
    }
}

// A number, with lent bytes.
fn of_number(f: u8, a: &[u8], out: &mut [u8]) -> u64 {
    let &[n] = a else {
        return BAD;
    };
    match f {
        0x20 => ghj_channel_text(n, out),
        0x21 => ghj_mode_text(n, out),
        0x22 => ghj_limit_text(n, out),
        0x23 => ghj_medium_text(n, out),
        0x24 => ghj_protocol_text(n, out),
        0x25 => ghj_session_support_text(n, out),
        0x26 => ghj_auth_type_name(n, out),
        0x27 => ghj_info_request(n, out),
        0x28 => ghj_suite_algorithms(n, out),
        _ => BAD,
    }
}

// A number alone.
fn of_leaf(f: u8, a: &[u8]) -> u64 {
    let &[n] = a else {
        return BAD;
    };
    match f {
        0x30 => code(channel_number(n)),
        0x31 => code(channel(n)),
        0x32 => unit_low(n) as u64,
        0x33 => or_none(unit(n)),
        0x34 => or_none(authentication(n)),
        0x35 => or_none(integrity(n)),
        0x36 => or_none(confidentiality(n)),
        0x37 => or_none(auth_type(n)),
        0x38 => or_none(privilege(n)),
        0x39 => or_none(suite(n)),
        0x3A => or_none(suite_confidentiality(n)),
        _ => BAD,
    }
}

// Two numbers.
fn of_two(f: u8, a: &[u8], out: &mut [u8]) -> u64 {
    let &[n, m] = a else {
        return BAD;
    };
    match f {
        0x40 => ghj_access_request(n, m, out),
        0x41 => ghj_capabilities_request(n, m, out),
        0x42 => ghj_suites_request(n, m, out),
        0x43 => ghj_compare_strength(n, m),
        _ => BAD,
    }
}

// At least one byte, of other shapes.
fn of_some(f: u8, a: &[u8], out: &mut [u8]) -> u64 {
    let [kind, name @ ..] = a else {
        return BAD;
    };
    match f {
        0x50 => ghj_challenge_request(*kind, name, out),
        0x51 => code(challenge_name(*kind, name, out)),
        0x52 => activation_request(a, out),
        0x53 => suite_of(a),
        _ => BAD,
    }
}

// All that tests/model answers.
fn of_model(f: u8, a: &[u8], out: &mut [u8]) -> u64 {
    match f {
        0x80 => set_access_request(a, out),
        0x81 => ghj_set_access(a, out),
        0x82 => code(set_written(a, out)),
        0x83 => set_access_apply(a, out),
        0x84 => code(set_applied(a, out)),
        0x85 => tagged_step(a, out),
        0x86 => ghj_tagged_numbers(a, out),
        0x87 => ghj_tagged_listing(a, out),
        0x88 => tagged_write(a, out),
        0x89 => by_suite_request(a, out),
        0x8A => code(by_suite_read(a)),
        0x8B => ghj_by_suite(a, out),
        0x8C => code(by_suite_written(a, out)),
        0x8D => code(joined_suites(a, out)),
        _ => BAD,
    }
}

pub(crate) fn call(f: u8, a: &[u8], out: &mut [u8]) -> u64 {
    match f / 16 {
        0 => of_response(f, a, out),
        1 => of_request(f, a, out),
        2 => of_number(f, a, out),
        3 => of_leaf(f, a),
        4 => of_two(f, a, out),
        5 => of_some(f, a, out),
        8 => of_model(f, a, out),
        _ => BAD,
    }
}
