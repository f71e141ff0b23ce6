// The message that opens a session, after ipmi-rs-core 0.6.0.
#![tactic(auto)]

pub mod activate_session;
