// An image and what the commands of a script do with it.
#![tactic(auto)]

pub mod held;
mod image;
mod line;
mod run;
pub mod session;
