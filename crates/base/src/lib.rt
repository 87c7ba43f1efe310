// Leaf code that every layer uses, and the laws that every proof uses.
#![tactic(auto)]

pub mod big_endian;
pub mod memory;
