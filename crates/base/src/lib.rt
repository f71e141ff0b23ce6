// What every message speaks: refusals, fields of a byte, writing into a lent buffer, texts, channels.
#![tactic(auto)]

pub mod connection;
pub mod field;
pub mod little;
pub mod refusal;
pub mod text;
pub mod written;
