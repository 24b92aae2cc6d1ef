// The parts of a script's lines: how one is read, what is wrong with a line, and how the parts of an answer are written.
#![tactic(auto)]

pub mod complaint;
pub mod parts;
pub mod writing;
