// Memory in blocks of 510 bytes, and two images that keep it in a slice of bytes.
#![tactic(auto)]

pub mod bare;
pub mod checked;
mod checksum;
pub mod fault;
pub mod image;
mod lent;
pub mod memory;
