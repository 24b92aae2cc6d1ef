// The script language of the bench: commands as they are read, answers as they are written.
#![tactic(auto)]

pub mod answer;
pub mod command;
pub mod reader;
