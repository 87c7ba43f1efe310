// The node's state: table, peers and endpoints by value; publishing; what stands last in a call that changes state.
#![tactic(auto)]

pub mod answers;
pub mod endpoints;
pub mod leaving;
pub mod peers;
pub mod publish;
pub mod settle;

use model::figures::MOST_ENDPOINTS;
use peers::Peers;
use table::Table;
use trickle::Trickle;

// One of our endpoints.
#[repr(C)]
#[derive(Clone, Copy)]
pub struct Endpoint {
    pub trickle: Trickle,
    // The reading from which network state may be requested again.
    pub next: u64,
    // The keep-alive interval, in milliseconds.
    pub keep: u32,
    // The reading of the last sending plus the delay that was fixed then.
    pub quiet: u64,
}

// The state that a call gets and leaves. A host keeps it and need not look into it; node data stand in the lent table memory.
#[repr(C)]
#[derive(Clone, Copy)]
pub struct State {
    // Our identifier.
    pub own: u32,
    // The last accepted reading of the clock.
    pub last: u64,
    pub table: Table,
    pub peers: Peers,
    pub endpoints: [Endpoint; MOST_ENDPOINTS],
    // The network digest at that reading.
    pub digest: [u8; 16],
}
