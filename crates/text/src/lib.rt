// Bytes of a script's line to values, and values to bytes of a transcript.
#![tactic(auto)]

pub mod digest;
mod digits;
pub mod hex;
pub mod number;
pub mod words;
