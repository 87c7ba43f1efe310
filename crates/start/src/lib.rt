// Beginning and resuming: our node with its table, no peers, and every endpoint's interval started.
#![tactic(auto)]

pub mod begin;
pub mod links;
pub mod resume;
