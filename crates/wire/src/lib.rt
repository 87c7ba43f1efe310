// The wire formats of the ledger: rows of TLVs, good node data, groups of seven bits, payments.
#![tactic(auto)]

pub mod groups;
pub mod kind;
pub mod order;
pub mod payment;
pub mod row;
pub mod tlvs;
