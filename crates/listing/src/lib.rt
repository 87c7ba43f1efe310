// A node's answers and its whole state as lines of a session.
#![tactic(auto)]

pub mod answers;
pub mod states;
