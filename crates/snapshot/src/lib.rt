// The snapshot: saving the table into lent room, and loading it again after judging it whole.
#![tactic(auto)]

pub mod load;
pub mod read;
pub mod save;
