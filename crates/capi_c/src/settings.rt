// Set Channel Access: the data of its request, a request read back, and a channel's two settings after the command.
ghost use Rattle.capi.specs.Number.{Codes};
ghost use Rattle.capi.specs.Settings.{set_access_applied, set_access_record, set_access_request};

// A pair is 0 leave, 1 non-volatile, 2 volatile.
#[unsafe(no_mangle)]
pub extern "C" fn ghj_set_access_request(
    channel: u8,
    mode_pair: u8,
    limit_pair: u8,
    access: &[u8; 5],
    out: &mut [u8],
) -> u64
    ensures { Codes (set_access_request channel mode_pair limit_pair access.now) result out.old out.new }
{
    capi::settings::ghj_set_access_request(channel, mode_pair, limit_pair, access, out)
}

// Takes only what the function above writes.
#[unsafe(no_mangle)]
pub extern "C" fn ghj_set_access(request: &[u8], out: &mut [u8]) -> u64
    ensures { Codes (set_access_record request.now) result out.old out.new }
{
    capi::settings::ghj_set_access(request, out)
}

// Applying looks at no channel: the command has one only because every command has.
#[unsafe(no_mangle)]
pub extern "C" fn ghj_set_access_apply(
    mode_pair: u8,
    limit_pair: u8,
    access: &[u8; 5],
    settings: &[u8; 10],
    out: &mut [u8],
) -> u64
    ensures { Codes (set_access_applied mode_pair limit_pair access.now settings.now) result out.old out.new }
{
    capi::settings::ghj_set_access_apply(mode_pair, limit_pair, access, settings, out)
}
