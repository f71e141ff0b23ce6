// Cipher suites, after ipmi-rs-core 0.6.0.
#![tactic(auto)]

pub mod collected;
pub mod get_channel_cipher_suites;
