// What goes from one TLV to the next, and replies into the lent room.
#![tactic(auto)]

pub mod put;
pub mod tell;

use node::Endpoint;
use reach::Reached;

// What holds for every TLV of a call; `random`: the call's random number for this endpoint; `others`: a Node State about another node is in the datagram.
#[derive(Clone, Copy)]
pub struct Context {
    pub own: u32,
    pub clock: u64,
    pub endpoint: u32,
    pub unicast: bool,
    pub random: u32,
    pub others: bool,
}

// The sender, as the latest Node Endpoint TLV names it.
#[derive(Clone, Copy)]
pub struct Sender {
    pub node: u32,
    pub endpoint: u32,
}

// What a call keeps beside table and peers: the endpoint it is on, the sender once there was one; the bytes
// written, replies omitted and TLVs dropped; marks and digest, if they were worked out and the table is still the same.
#[derive(Clone, Copy)]
pub struct Progress {
    pub local: Endpoint,
    pub sender: Option<Sender>,
    pub used: usize,
    pub omitted: u32,
    pub dropped: u32,
    pub reached: Option<Reached>,
}
