// Why a call is refused: the faults of the layers, and what is told of each.
#![tactic(auto)]

pub mod cause;
pub mod fault;
pub mod refusal;
