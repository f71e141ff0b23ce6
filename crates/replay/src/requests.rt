// Requests read: their parts, low byte first, in the number. Of a challenge's request the name that it shows is lent, and the
// number is the type and the name's length; of an activation's the challenge is lent, and the number is the type, the level and
// the sequence number.
use crate::calls::{NONE, two};
use access::get_channel_access::{ChannelAccessType, GetChannelAccess};
use activation::activate_session::ActivateSession;
use auth::AuthType;
use auth::get_channel_authentication_capabilities::GetChannelAuthenticationCapabilities;
use base::little::number;
use base::refusal::Refusal;
use base::written::place;
use challenge::get_session_challenge::GetSessionChallenge;
use info::get_channel_info::GetChannelInfo;
use suites::get_channel_cipher_suites::GetChannelCipherSuites;

fn kind_number(access_type: ChannelAccessType) -> u8 {
    match access_type {
        ChannelAccessType::NonVolatile => 1,
        ChannelAccessType::Volatile => 2,
    }
}

pub(crate) fn access_read(request: &[u8]) -> Result<usize, Refusal> {
    let command = GetChannelAccess::read(request)?;
    Ok(two(command.channel.value(), kind_number(command.access_type)))
}

pub(crate) fn info_read(request: &[u8]) -> Result<usize, Refusal> {
    Ok(GetChannelInfo::read(request)?.channel.value() as usize)
}

pub(crate) fn capabilities_read(request: &[u8]) -> Result<usize, Refusal> {
    let command = GetChannelAuthenticationCapabilities::read(request)?;
    Ok(two(
        command.channel_number.value(),
        command.privilege_level.into(),
    ))
}

pub(crate) fn suites_read(request: &[u8]) -> Result<usize, Refusal> {
    let command = GetChannelCipherSuites::read(request)?;
    Ok(two(command.channel.value(), command.list_index))
}

fn challenge_shown(command: GetSessionChallenge, out: &mut [u8]) -> Result<usize, Refusal> {
    let n = command.username(out)?;
    Ok(two(command.auth_type().into(), (n % 256) as u8))
}

pub(crate) fn challenge_read(request: &[u8], out: &mut [u8]) -> Result<usize, Refusal> {
    challenge_shown(GetSessionChallenge::read(request)?, out)
}

pub(crate) fn challenge_name(kind: u8, name: &[u8], out: &mut [u8]) -> Result<usize, Refusal> {
    let Some(kind) = AuthType::numbered(kind) else {
        return Ok(NONE);
    };
    challenge_shown(GetSessionChallenge::new(kind, name)?, out)
}

pub(crate) fn activation_read(request: &[u8], out: &mut [u8]) -> Result<usize, Refusal> {
    let command = ActivateSession::read(request)?;
    place(&command.challenge_string, out)?;
    let kind = command.auth_type.into();
    let level = command.maximum_privilege_level.into();
    Ok(number([kind, level, 0, 0]) as usize + 0x1_0000 * command.initial_sequence_number as usize)
}
