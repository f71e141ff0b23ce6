// The library from C: functions on numbers and byte slices.
#![tactic(auto, unfolding(base::specs::Written::written, base::specs::Written::length_of, base::specs::Written::over))]

pub mod channel_collecting;
pub mod collecting;
pub mod display;
pub mod list;
pub mod number;
pub mod requests;
pub mod responses;
pub mod settings;
pub mod strength;
pub mod table;
pub mod tagged_records;
