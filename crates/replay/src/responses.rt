// Responses read and written again, what their records are asked, and suites.
use crate::calls::NONE;
use crate::leaves::confidentiality_named;
use access::get_channel_access::ChannelAccess;
use auth::get_channel_authentication_capabilities::ChannelAuthenticationCapabilities;
use base::little::number;
use base::refusal::Refusal;
use base::written::place;
use info::get_channel_info::ChannelInfo;
use suites::get_channel_cipher_suites::{ChannelCipherSuites, CipherSuite, Iter, filled};

pub(crate) fn is_disabled(response: &[u8]) -> Result<usize, Refusal> {
    Ok(ChannelAccess::parse(response)?.is_disabled() as usize)
}

pub(crate) fn access_written(response: &[u8], out: &mut [u8]) -> Result<usize, Refusal> {
    ChannelAccess::parse(response)?.write(out)
}

pub(crate) fn info_written(response: &[u8], out: &mut [u8]) -> Result<usize, Refusal> {
    ChannelInfo::parse(response)?.write(out)
}

pub(crate) fn best_auth(response: &[u8]) -> Result<usize, Refusal> {
    match ChannelAuthenticationCapabilities::parse(response)?.best_auth() {
        Some(kind) => Ok(u8::from(kind) as usize),
        None => Ok(NONE),
    }
}

pub(crate) fn capabilities_written(response: &[u8], out: &mut [u8]) -> Result<usize, Refusal> {
    ChannelAuthenticationCapabilities::parse(response)?.write(out)
}

// The filled part of the record.
pub(crate) fn suites_part(response: &[u8], out: &mut [u8]) -> Result<usize, Refusal> {
    let suites = ChannelCipherSuites::parse(response)?;
    place(filled(&suites.record_data, suites.data_length), out)
}

pub(crate) fn suites_written(response: &[u8], out: &mut [u8]) -> Result<usize, Refusal> {
    ChannelCipherSuites::parse(response)?.write(out)
}

// As many steps as there are bytes lent: a suite's number, or 255 for nothing.
pub(crate) fn suite_steps(list: &[u8], out: &mut [u8]) -> usize {
    let mut steps = Iter::parse_full_data(list);
    for byte in out.iter_mut() {
        *byte = match steps.next() {
            Some(suite) => suite.id(),
            None => 255,
        };
    }
    out.len()
}

// The number, then the numbers of the algorithms.
pub(crate) fn suite(n: u8) -> Option<usize> {
    let suite = CipherSuite::from_id(n)?;
    let authentication = suite.authentication()?.into();
    let integrity = suite.integrity()?.into();
    Some(number([suite.id(), authentication, integrity, 0]) as usize)
}

pub(crate) fn suite_confidentiality(n: u8) -> Option<usize> {
    Some(confidentiality_named(CipherSuite::from_id(n)?.confidentiality()?))
}
