// The steps of which a meter's calls are made.
#![tactic(auto)]

pub mod clock;
pub mod ends;
pub mod energy;
pub mod entry;
pub mod force;
mod parts;
pub mod work;
