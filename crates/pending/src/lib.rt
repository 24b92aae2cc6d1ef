// Staged tables: which tables can wait, for what, and the row in which one waits.
#![tactic(auto)]

pub mod kind;
pub mod plan;
pub mod row;
pub mod table;
pub mod trigger;
