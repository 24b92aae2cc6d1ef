// The tables of a meter as bytes: any part of any table, read into a buffer or answered.
#![tactic(auto)]

mod copy;
pub mod read;
pub mod readout;
pub mod response;
mod stored;
mod views;
