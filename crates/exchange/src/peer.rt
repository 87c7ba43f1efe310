// Node Endpoint TLVs: the sender, and new peers.
ghost use Rattle.std.specs.Prelude.{◌≡◌, ◌&&◌, List, ℕ, ◌+◌, ltb, leb};
ghost use Rattle.model.specs.Figures.{most_peers, publish_limit, peer_bytes};
ghost use Rattle.model.specs.Handle.{greet, on_endpoint};
ghost use Rattle.node.specs.View.{PeersRep};
ghost use Rattle.reply.specs.View.{context_of, Markable};
ghost use Rattle.exchange.specs.Told.{Told};

use crate::{Act, Step, still};
use decide::Decision;
use model::figures::{MOST_PEERS, PEER_BYTES, PUBLISH_LIMIT};
use node::peers::{Peers, is_known};
use node::publish::own_place;
use reply::{Context, Progress, Sender};
use table::{Table, meta_at};

// Our data have no room for a Peer TLV above this length.
const FULL: usize = PUBLISH_LIMIT - PEER_BYTES;

// Room for another peer: in the list of 16, and for its TLV of 16 bytes in our data.
fn has_room(count: usize, len: usize) -> bool
    ensures { result ≡ ltb count most_peers && leb (len + peer_bytes) publish_limit }
{
    count < MOST_PEERS && len <= FULL
}

// The sender, unknown and over unicast: a peer if there is room, else dropped.
fn greet(d: Progress, t: Table, p: Peers, mem: &[u8], c: Context, f: Sender) -> Step
    requires { Markable c t d mem.now }
    ensures { (v : List ℕ) → Told c 1 (greet (context_of c) (record { node = f.node; endpoint = f.endpoint })) v t p d mem.now result }
{
    let i = own_place(t, mem, c.own);
    let e = meta_at(t, i);
    if has_room(p.count, e.len as usize) {
        return Step {
            progress: d,
            act: Act::Greet(f),
        };
    }
    Step {
        progress: d,
        act: Act::Decided(Decision::Dropped),
    }
}

// A Node Endpoint TLV.
pub fn on_endpoint(
    d: Progress,
    t: Table,
    p: Peers,
    mem: &[u8],
    c: Context,
    node: u32,
    endpoint: u32,
) -> Step
    requires { Markable c t d mem.now × PeersRep p }
    ensures { (v : List ℕ) → Told c 1 (on_endpoint (context_of c) (record { node = node; endpoint = endpoint })) v t p d mem.now result }
{
    if node == c.own {
        return still(d);
    }
    let f = Sender { node, endpoint };
    let next = Progress {
        sender: Some(f),
        ..d
    };
    if is_known(p, node, endpoint, c.endpoint) {
        return still(next);
    }
    if c.unicast {
        return greet(next, t, p, mem, c, f);
    }
    Step {
        progress: next,
        act: Act::AskNetwork,
    }
}
