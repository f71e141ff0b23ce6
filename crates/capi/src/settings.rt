// Set Channel Access: the data of its request, a request read back, and a channel's two settings after the command.
ghost use Rattle.capi.specs.Number.{Codes};
ghost use Rattle.capi.specs.Settings.{set_access_applied, set_access_record, set_access_request};

use crate::number::{code, refused};
use base::connection::Channel;
use base::written::place;
use layouts::{access_record, set_access_layout, settings_layout, settings_record};
use set_access::set_channel_access::{AccessPair, SetChannelAccess};

// A pair is 0 leave, 1 non-volatile, 2 volatile.
pub fn ghj_set_access_request(
    channel: u8,
    mode_pair: u8,
    limit_pair: u8,
    access: &[u8; 5],
    out: &mut [u8],
) -> u64
    ensures { Codes (set_access_request channel mode_pair limit_pair access.now) result out.old out.new }
{
    let mode = AccessPair::from(mode_pair);
    let limit = AccessPair::from(limit_pair);
    match SetChannelAccess::numbered(channel, mode, limit, access_record(access)) {
        Ok(command) => code(command.write(out)),
        Err(refusal) => refused(refusal),
    }
}

// Takes only what the function above writes.
pub fn ghj_set_access(request: &[u8], out: &mut [u8]) -> u64
    ensures { Codes (set_access_record request.now) result out.old out.new }
{
    match SetChannelAccess::read(request) {
        Ok(command) => code(place(&set_access_layout(command), out)),
        Err(refusal) => refused(refusal),
    }
}

// Applying looks at no channel: the command has one only because every command has.
pub fn ghj_set_access_apply(
    mode_pair: u8,
    limit_pair: u8,
    access: &[u8; 5],
    settings: &[u8; 10],
    out: &mut [u8],
) -> u64
    ensures { Codes (set_access_applied mode_pair limit_pair access.now settings.now) result out.old out.new }
{
    let command = SetChannelAccess {
        channel: Channel::Primary,
        mode_pair: AccessPair::from(mode_pair),
        limit_pair: AccessPair::from(limit_pair),
        access: access_record(access),
    };
    match command.apply(settings_record(settings)) {
        Ok(after) => code(place(&settings_layout(after), out)),
        Err(refusal) => refused(refusal),
    }
}
