// Cipher suites by suite: document 02, C-12. The crate's reading of the same command stands in `suites`.
#![tactic(auto)]

pub mod channel_collector;
pub mod get_channel_cipher_suites;
