// A tick of one endpoint: silent peers go, then at most one event; its keep-alive interval chosen; and purging, by which nodes out of reach go.
#![tactic(auto)]

pub mod choice;
pub mod purge;
pub mod silence;
pub mod tick;
