// Records as bytes, a byte for each field: what the C functions give and take. include/ghjalvestru.h has the layouts.
#![tactic(auto)]

ghost use Rattle.std.specs.Prelude.{◌≡◌};
ghost use Rattle.layouts.specs.Layouts.{access_layout, access_record, capabilities_layout, info_layout, set_access_layout, settings_layout, settings_record};

use access::get_channel_access::ChannelAccess;
use auth::get_channel_authentication_capabilities::ChannelAuthenticationCapabilities;
use base::little::bytes;
use info::get_channel_info::ChannelInfo;
use set_access::set_channel_access::{ChannelSettings, SetChannelAccess};

// Mode; alerting, per-message and user-level authentication DISABLED, 0 or 1 each; limit.
pub fn access_layout(access: ChannelAccess) -> [u8; 5]
    ensures { result ≡ access_layout access }
{
    [
        access.access_mode.into(),
        access.alerting_disabled as u8,
        access.per_msg_auth_disabled as u8,
        access.user_level_auth_disabled as u8,
        access.privilege_level_limit.into(),
    ]
}

// The record back, of any bytes: any number but 0 sets a flag; mode and limit count whole.
pub fn access_record(bytes: &[u8; 5]) -> ChannelAccess
    ensures { result ≡ access_record bytes.now }
{
    ChannelAccess {
        access_mode: bytes[0].into(),
        alerting_disabled: bytes[1] != 0,
        per_msg_auth_disabled: bytes[2] != 0,
        user_level_auth_disabled: bytes[3] != 0,
        privilege_level_limit: bytes[4].into(),
    }
}

// Channel; the pair of the mode; the pair of the limit; the access record.
pub fn set_access_layout(command: SetChannelAccess) -> [u8; 8]
    ensures { result ≡ set_access_layout command }
{
    let mut bytes = [0; 8];
    bytes[0] = command.channel.value();
    bytes[1] = command.mode_pair.into();
    bytes[2] = command.limit_pair.into();
    bytes[3..].copy_from_slice(&access_layout(command.access));
    bytes
}

// The access record of the non-volatile settings, then that of the volatile ones.
pub fn settings_layout(settings: ChannelSettings) -> [u8; 10]
    ensures { result ≡ settings_layout settings }
{
    let mut bytes = [0; 10];
    bytes[..5].copy_from_slice(&access_layout(settings.non_volatile));
    bytes[5..].copy_from_slice(&access_layout(settings.volatile));
    bytes
}

// The same back, of any bytes.
pub fn settings_record(bytes: &[u8; 10]) -> ChannelSettings
    ensures { result ≡ settings_record bytes.now }
{
    ChannelSettings {
        non_volatile: access_record(&[bytes[0], bytes[1], bytes[2], bytes[3], bytes[4]]),
        volatile: access_record(&[bytes[5], bytes[6], bytes[7], bytes[8], bytes[9]]),
    }
}

// Channel; medium; protocol; session support; active sessions; vendor, four bytes, low first; two auxiliary bytes.
pub fn info_layout(info: ChannelInfo) -> [u8; 11]
    ensures { result ≡ info_layout info }
{
    let v = bytes::<4>(info.vendor_id as u64);
    [
        info.channel.value(),
        info.medium_type.into(),
        info.protocol_type.into(),
        info.session_support.into(),
        info.active_sessions,
        v[0],
        v[1],
        v[2],
        v[3],
        info.aux_info.byte1,
        info.aux_info.byte2,
    ]
}

// Channel; OEM, Key, MD5, MD2, none; KG status, per-message, user-level, non-null names, null names, anonymous; v2.0,
// v1.5; OEM id, three bytes; auxiliary.
pub fn capabilities_layout(c: ChannelAuthenticationCapabilities) -> [u8; 18]
    ensures { result ≡ capabilities_layout c }
{
    [
        c.channel_number,
        c.oem_proprietary as u8,
        c.key as u8,
        c.md5 as u8,
        c.md2 as u8,
        c.none as u8,
        c.kg_status as u8,
        c.per_message_authentication_enabled as u8,
        c.user_level_authentication_enabled as u8,
        c.non_null_usernames_enabled as u8,
        c.null_usernames_enabled as u8,
        c.anonymous_login_enabled as u8,
        c.ipmi2_connections_supported as u8,
        c.ipmi15_connections_supported as u8,
        c.oem_id[0],
        c.oem_id[1],
        c.oem_id[2],
        c.oem_auxiliary_data,
    ]
}
