// The tables of the meter: their numbers, lengths and places, and what each may be used for.
#![tactic(auto)]

pub mod entry;
pub mod log;
pub mod lookup;
pub mod staged;
pub mod usage;
