// Requests read from their bytes, parts of tables, and answers put into a buffer.
#![tactic(auto)]

pub mod answer;
pub mod part;
mod reader;
pub mod request;
mod sums;
