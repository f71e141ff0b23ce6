// What names a channel's medium, protocol and sessions, after ipmi-rs-core 0.6.0.
#![tactic(auto)]

pub mod get_channel_info;
