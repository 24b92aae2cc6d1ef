// Block 0: what a meter keeps beside its tables and logs.
#![tactic(auto)]

mod codec;
pub mod head;
pub mod layout;
mod order;
