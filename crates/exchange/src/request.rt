// Requests: for the network's state, and for one node's.
ghost use Rattle.std.specs.Prelude.{List, ℕ};
ghost use Rattle.model.specs.Handle.{on_request_network, on_request_node};
ghost use Rattle.node.specs.declared.peers.Peers.{Peers};
ghost use Rattle.reply.specs.View.{context_of, Markable};
ghost use Rattle.exchange.specs.Told.{Told};

use crate::marks::refreshed;
use crate::{Act, Step, still};
use reply::{Context, Progress};
use table::{Table, find};

// A Request Network State TLV.
pub fn on_request_network(d: Progress, t: Table, mem: &[u8], c: Context) -> Step
    requires { Markable c t d mem.now }
    ensures { (v : List ℕ) (p : Peers) → Told c 33 (on_request_network (context_of c)) v t p d mem.now result }
{
    let reached = refreshed(d, t, mem, c);
    Step {
        progress: Progress {
            reached: Some(reached),
            ..d
        },
        act: Act::TellNetwork,
    }
}

// A Request Node State TLV: the node's state, if it is reachable.
pub fn on_request_node(d: Progress, t: Table, mem: &[u8], c: Context, node: u32) -> Step
    requires { Markable c t d mem.now }
    ensures { (v : List ℕ) (p : Peers) → Told c 1 (on_request_node (context_of c) node) v t p d mem.now result }
{
    let reached = refreshed(d, t, mem, c);
    let u = Progress {
        reached: Some(reached),
        ..d
    };
    match find(t, node) {
        Ok(place) if reached.marks[place] => Step {
            progress: u,
            act: Act::TellNode { place },
        },
        _ => still(u),
    }
}
