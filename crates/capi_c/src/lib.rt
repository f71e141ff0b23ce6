// The C functions: those of capi, exported under their names, with the same promises word for word.
#![tactic(auto)]

pub mod channel_collecting;
pub mod collecting;
pub mod display;
pub mod list;
pub mod requests;
pub mod responses;
pub mod settings;
pub mod strength;
pub mod table;
pub mod tagged_records;
