// What a request is decided to do, or refused for, before anything is done.
#![tactic(auto)]

pub mod content;
pub mod decide;
pub mod deed;
pub mod present;
mod rules;
