// The message that asks for a session's challenge, after ipmi-rs-core 0.6.0.
#![tactic(auto)]

pub mod get_session_challenge;
