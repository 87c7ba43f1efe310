// Document 01 as definitions (specs/) with the theorems about them (proofs/); as code its figures and numbers, and the arithmetic of sequence numbers.
#![tactic(auto)]

pub mod endpoint;
pub mod figures;
pub mod numbers;
pub mod reading;
pub mod sequence;
