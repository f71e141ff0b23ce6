// Types without parts: what a number names, as the number that the name has and, times 256, its place among the names of its
// type, in the order of the Rust.
use crate::calls::two;
use auth::algorithms::{AuthenticationAlgorithm, ConfidentialityAlgorithm, IntegrityAlgorithm};
use auth::{AuthType, PrivilegeLevel};
use base::connection::{Channel, ChannelNumber, LogicalUnit};
use base::refusal::Refusal;

pub(crate) fn channel_number(n: u8) -> Result<usize, Refusal> {
    Ok(ChannelNumber::new(n)?.value() as usize)
}

pub(crate) fn channel(n: u8) -> Result<usize, Refusal> {
    Ok(Channel::new(n)?.value() as usize)
}

fn unit_named(unit: LogicalUnit) -> usize {
    let place = match unit {
        LogicalUnit::Zero => 0,
        LogicalUnit::One => 1,
        LogicalUnit::Two => 2,
        LogicalUnit::Three => 3,
    };
    two(unit.value(), place)
}

pub(crate) fn unit_low(n: u8) -> usize {
    unit_named(LogicalUnit::from_low_bits(n))
}

pub(crate) fn unit(n: u8) -> Option<usize> {
    Some(unit_named(LogicalUnit::try_from(n).ok()?))
}

// Of a type whose names are made of numbers and turn back to them.
fn named<T: TryFrom<u8, Error = ()> + Into<u8> + Copy, F: Fn(T) -> u8>(
    n: u8,
    place: F,
) -> Option<usize>
    requires { F.IsAlwaysCallable place }
{
    let name = T::try_from(n).ok()?;
    Some(two(name.into(), place(name)))
}

pub(crate) fn authentication(n: u8) -> Option<usize> {
    named(n, |algorithm: AuthenticationAlgorithm| algorithm as u8)
}

pub(crate) fn integrity(n: u8) -> Option<usize> {
    named(n, |algorithm: IntegrityAlgorithm| algorithm as u8)
}

pub(crate) fn confidentiality_named(algorithm: ConfidentialityAlgorithm) -> usize {
    two(algorithm.into(), algorithm as u8)
}

pub(crate) fn confidentiality(n: u8) -> Option<usize> {
    named(n, |algorithm: ConfidentialityAlgorithm| algorithm as u8)
}

pub(crate) fn auth_type(n: u8) -> Option<usize> {
    named(n, |kind: AuthType| kind as u8)
}

pub(crate) fn privilege(n: u8) -> Option<usize> {
    named(n, |level: PrivilegeLevel| level as u8)
}
