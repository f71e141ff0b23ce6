// The data of each request, at the start of out. Arguments are looked at in their order, then the room.
ghost use Rattle.capi.specs.Number.{Codes, CodesAny};
ghost use Rattle.capi.specs.Numbered.{activation_request, capabilities_request, challenge_request};
ghost use Rattle.capi.specs.Requests.{access_request, by_suite_request, info_request, suites_request};

use crate::number::{NONE, code, refused};
use access::get_channel_access::GetChannelAccess;
use activation::activate_session::ActivateSession;
use auth::get_channel_authentication_capabilities::GetChannelAuthenticationCapabilities;
use auth::{AuthType, PrivilegeLevel};
use base::connection::Channel;
use base::refusal::Refusal;
use by_suite::get_channel_cipher_suites::BySuite;
use challenge::get_session_challenge::GetSessionChallenge;
use info::get_channel_info::GetChannelInfo;
use suites::get_channel_cipher_suites::GetChannelCipherSuites;

// 1 asks for the non-volatile settings, 2 for the volatile ones.
pub fn ghj_access_request(channel: u8, kind: u8, out: &mut [u8]) -> u64
    ensures { Codes (access_request channel kind) result out.old out.new }
{
    let Ok(channel) = Channel::new(channel) else {
        return refused(Refusal::NoChannel);
    };
    match kind {
        1 => code(GetChannelAccess::non_volatile(channel).write(out)),
        2 => code(GetChannelAccess::volatile(channel).write(out)),
        _ => refused(Refusal::NoForm),
    }
}

pub fn ghj_info_request(channel: u8, out: &mut [u8]) -> u64
    ensures { Codes (info_request channel) result out.old out.new }
{
    match GetChannelInfo::numbered(channel) {
        Ok(command) => code(command.write(out)),
        Err(refusal) => refused(refusal),
    }
}

// The number of a type or a level counts whole. One that names nothing answers none, and nothing is written.

pub fn ghj_capabilities_request(channel: u8, privilege: u8, out: &mut [u8]) -> u64
    ensures { CodesAny (capabilities_request channel privilege) result out.old out.new }
{
    let Ok(channel) = Channel::new(channel) else {
        return refused(Refusal::NoChannel); // before a level that names nothing
    };
    let Some(level) = PrivilegeLevel::numbered(privilege) else {
        return NONE;
    };
    code(GetChannelAuthenticationCapabilities::new(channel, level).write(out))
}

pub fn ghj_challenge_request(auth_type: u8, name: &[u8], out: &mut [u8]) -> u64
    ensures { CodesAny (challenge_request auth_type name.now) result out.old out.new }
{
    let Some(kind) = AuthType::numbered(auth_type) else {
        return NONE;
    };
    match GetSessionChallenge::new(kind, name) {
        Ok(command) => code(command.write(out)),
        Err(refusal) => refused(refusal),
    }
}

pub fn ghj_activation_request(
    auth_type: u8,
    privilege: u8,
    challenge: &[u8; 16],
    sequence: u32,
    out: &mut [u8],
) -> u64
    ensures { CodesAny (activation_request auth_type privilege challenge.now sequence) result out.old out.new }
{
    let Some(kind) = AuthType::numbered(auth_type) else {
        return NONE;
    };
    let Some(level) = PrivilegeLevel::numbered(privilege) else {
        return NONE;
    };
    let command = ActivateSession {
        auth_type: kind,
        maximum_privilege_level: level,
        challenge_string: *challenge,
        initial_sequence_number: sequence,
    };
    code(command.write(out))
}

pub fn ghj_suites_request(channel: u8, index: u8, out: &mut [u8]) -> u64
    ensures { Codes (suites_request channel index) result out.old out.new }
{
    match GetChannelCipherSuites::numbered(channel, index) {
        Ok(command) => code(command.write(out)),
        Err(refusal) => refused(refusal),
    }
}

// The same by suite.
pub fn ghj_by_suite_request(channel: u8, index: u8, out: &mut [u8]) -> u64
    ensures { Codes (by_suite_request channel index) result out.old out.new }
{
    match BySuite::numbered(channel, index) {
        Ok(command) => code(command.write(out)),
        Err(refusal) => refused(refusal),
    }
}
