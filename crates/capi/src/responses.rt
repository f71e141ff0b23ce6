// The readers of responses: each writes the record's fields at the start of out. By `match`: of `and_then` no clause says what a
// closure that is not called leaves of out.
ghost use Rattle.capi.specs.Number.{Codes};
ghost use Rattle.capi.specs.Records.{access_record, activation_record, by_suite_record, capabilities_record, challenge_record, info_record, suites_record};

use crate::number::{code, refused};
use access::get_channel_access::ChannelAccess;
use activation::activate_session::BeginSessionInfo;
use auth::get_channel_authentication_capabilities::ChannelAuthenticationCapabilities;
use base::written::place;
use by_suite::get_channel_cipher_suites::ChannelSuites;
use challenge::get_session_challenge::SessionChallenge;
use info::get_channel_info::ChannelInfo;
use layouts::{access_layout, capabilities_layout, info_layout};
use suites::get_channel_cipher_suites::ChannelCipherSuites;

// Temporary session number, four bytes, low first; the challenge, sixteen.
pub fn ghj_challenge(response: &[u8], out: &mut [u8]) -> u64
    ensures { Codes (challenge_record response.now) result out.old out.new }
{
    match SessionChallenge::parse(response) {
        Ok(challenge) => code(challenge.write(out)),
        Err(refusal) => refused(refusal),
    }
}

// Authentication type; session number and initial sequence number, four bytes each, low first; privilege level.
pub fn ghj_activation(response: &[u8], out: &mut [u8]) -> u64
    ensures { Codes (activation_record response.now) result out.old out.new }
{
    match BeginSessionInfo::parse(response) {
        Ok(info) => code(info.write(out)),
        Err(refusal) => refused(refusal),
    }
}

// The part of the list that the answer has: an accepted answer's own bytes.
pub fn ghj_suites(response: &[u8], out: &mut [u8]) -> u64
    ensures { Codes (suites_record response.now) result out.old out.new }
{
    match ChannelCipherSuites::parse(response) {
        Ok(_) => code(place(response, out)),
        Err(refusal) => refused(refusal),
    }
}

// An answer by suite: its channel's number, then the part of the list.
pub fn ghj_by_suite(response: &[u8], out: &mut [u8]) -> u64
    ensures { Codes (by_suite_record response.now) result out.old out.new }
{
    match ChannelSuites::parse(response) {
        Ok(answer) => code(answer.write(out)),
        Err(refusal) => refused(refusal),
    }
}

pub fn ghj_access(response: &[u8], out: &mut [u8]) -> u64
    ensures { Codes (access_record response.now) result out.old out.new }
{
    match ChannelAccess::parse(response) {
        Ok(access) => code(place(&access_layout(access), out)),
        Err(refusal) => refused(refusal),
    }
}

pub fn ghj_info(response: &[u8], out: &mut [u8]) -> u64
    ensures { Codes (info_record response.now) result out.old out.new }
{
    match ChannelInfo::parse(response) {
        Ok(info) => code(place(&info_layout(info), out)),
        Err(refusal) => refused(refusal),
    }
}

pub fn ghj_capabilities(response: &[u8], out: &mut [u8]) -> u64
    ensures { Codes (capabilities_record response.now) result out.old out.new }
{
    match ChannelAuthenticationCapabilities::parse(response) {
        Ok(capabilities) => code(place(&capabilities_layout(capabilities), out)),
        Err(refusal) => refused(refusal),
    }
}
