// Procedures: what their bytes order, and the order carried out.
#![tactic(auto)]

pub mod carry;
pub mod order;
pub mod parameters;
