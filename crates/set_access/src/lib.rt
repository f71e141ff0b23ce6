// The command that sets a channel's access settings, which ipmi-rs-core 0.6.0 does not have.
#![tactic(auto)]

pub mod set_channel_access;
