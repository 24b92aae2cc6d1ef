// The records that a meter's logs keep: events, self-reads and intervals.
#![tactic(auto)]

pub mod event;
pub mod history;
pub mod interval;
pub mod kind;
mod layout;
pub mod registers;
pub mod self_read;
pub mod status;
