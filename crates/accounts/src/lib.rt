// Payments: ours published, everybody's summed.
#![tactic(auto)]

pub mod pay;
pub mod totals;
