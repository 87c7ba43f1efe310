// Text as bytes: numbers, bytes in hexadecimal and words, read and written. Nothing here reads input or prints: see the crate `console`.
#![tactic(auto)]

pub mod hexadecimal;
pub mod numbers;
pub mod words;
