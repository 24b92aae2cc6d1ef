// Bytes and numbers in byte slices at given places.
#![tactic(auto)]

pub mod bytes;
pub mod order;
pub mod words;
