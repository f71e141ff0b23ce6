// C functions whose arguments are other than bytes or a number or two: these are taken out of a question's bytes.
use crate::calls::BAD;
use base::little::number;
use capi::requests::{ghj_activation_request, ghj_by_suite_request};
use capi::settings::{ghj_set_access_apply, ghj_set_access_request};
use capi::table::ghj_suite_of;
use capi::tagged_records::{ghj_tagged_step, ghj_tagged_write};

pub(crate) fn activation_request(a: &[u8], out: &mut [u8]) -> u64 {
    let [kind, level, challenge @ .., s0, s1, s2, s3] = a else {
        return BAD;
    };
    let Some(challenge) = challenge.as_array::<16>() else {
        return BAD;
    };
    let sequence = number([*s0, *s1, *s2, *s3]);
    ghj_activation_request(*kind, *level, challenge, sequence, out)
}

pub(crate) fn suite_of(a: &[u8]) -> u64 {
    let &[authentication, integrity, confidentiality] = a else {
        return BAD;
    };
    ghj_suite_of(authentication, integrity, confidentiality)
}

pub(crate) fn set_access_request(a: &[u8], out: &mut [u8]) -> u64 {
    let [channel, mode_pair, limit_pair, access @ ..] = a else {
        return BAD;
    };
    let Some(access) = access.as_array::<5>() else {
        return BAD;
    };
    ghj_set_access_request(*channel, *mode_pair, *limit_pair, access, out)
}

pub(crate) fn set_access_apply(a: &[u8], out: &mut [u8]) -> u64 {
    let [mode_pair, limit_pair, records @ ..] = a else {
        return BAD;
    };
    let Some((access, settings)) = records.split_first_chunk::<5>() else {
        return BAD;
    };
    let Some(settings) = settings.as_array::<10>() else {
        return BAD;
    };
    ghj_set_access_apply(*mode_pair, *limit_pair, access, settings, out)
}

pub(crate) fn tagged_step(a: &[u8], out: &mut [u8]) -> u64 {
    let [low, high, list @ ..] = a else {
        return BAD;
    };
    ghj_tagged_step(list, number([*low, *high, 0, 0]) as usize, out)
}

pub(crate) fn by_suite_request(a: &[u8], out: &mut [u8]) -> u64 {
    let &[channel, index] = a else {
        return BAD;
    };
    ghj_by_suite_request(channel, index, out)
}

// The eighth byte says how many of the algorithms' numbers behind it are those of the integrity.
pub(crate) fn tagged_write(a: &[u8], out: &mut [u8]) -> u64 {
    let [
        owner,
        v0,
        v1,
        v2,
        v3,
        suite,
        authentication,
        n,
        algorithms @ ..,
    ] = a
    else {
        return BAD;
    };
    let Some((integrity, confidentiality)) = algorithms.split_at_checked(*n as usize) else {
        return BAD;
    };
    let vendor = number([*v0, *v1, *v2, *v3]);
    ghj_tagged_write(
        *owner,
        vendor,
        *suite,
        *authentication,
        integrity,
        confidentiality,
        out,
    )
}
