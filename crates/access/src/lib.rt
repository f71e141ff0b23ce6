// The channel's access settings, after ipmi-rs-core 0.6.0.
#![tactic(auto)]

pub mod get_channel_access;
