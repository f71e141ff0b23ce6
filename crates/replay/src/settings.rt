// A request of Set Channel Access read, and written again or applied.
use base::refusal::Refusal;
use base::written::place;
use layouts::{settings_layout, settings_record};
use set_access::set_channel_access::SetChannelAccess;

pub(crate) fn set_written(request: &[u8], out: &mut [u8]) -> Result<usize, Refusal> {
    SetChannelAccess::read(request)?.write(out)
}

// The settings before it, ten bytes, then the request.
pub(crate) fn set_applied(a: &[u8], out: &mut [u8]) -> Result<usize, Refusal> {
    let Some((settings, request)) = a.split_first_chunk::<10>() else {
        return Err(Refusal::BadLine);
    };
    let after = SetChannelAccess::read(request)?.apply(settings_record(settings))?;
    place(&settings_layout(after), out)
}
