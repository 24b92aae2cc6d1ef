// The names that the service knows by numbers.
#![tactic(auto)]

pub mod log;
pub mod number;
pub mod procedure;
pub mod service;
pub mod tier;
