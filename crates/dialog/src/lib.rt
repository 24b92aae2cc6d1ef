// The whole script language of the bench: besides images and dates, the commands on a meter and their answers.
#![tactic(auto)]

pub mod answer;
pub mod command;
pub mod reader;
