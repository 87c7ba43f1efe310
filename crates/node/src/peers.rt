// The peers: known, contacted, added.
ghost use Rattle.std.specs.Prelude.{◌≡◌, [], ◌∷◌, ◌++◌, map, ◌<◌};
ghost use Rattle.base.specs.Lists.{any};
ghost use Rattle.model.specs.Figures.{most_peers};
ghost use Rattle.model.specs.State.{is_peer, contacted};
ghost use Rattle.node.specs.View.{peer_of, peers_of, PeersRep};

use model::figures::MOST_PEERS;

// A peer: a node on a link of ours.
#[repr(C)]
#[derive(Clone, Copy)]
pub struct Peer {
    pub node: u32,
    // Its endpoint.
    pub theirs: u32,
    // Our endpoint.
    pub ours: u32,
    // The reading of the last contact.
    pub contact: u64,
}

// The list of the peers with its count beside it: the C interface.

// The peers, in the order in which they came: the first count of the list.
#[repr(C)]
#[derive(Clone, Copy)]
pub struct Peers {
    pub count: usize,
    pub list: [Peer; MOST_PEERS],
}

// The peer has this node, endpoint of its own and endpoint of ours. A struct of the three would be made for the call alone.
pub fn is_peer(p: Peer, node: u32, theirs: u32, ours: u32) -> bool
    ensures { result ≡ is_peer node theirs ours (peer_of p) }
{
    p.node == node && p.theirs == theirs && p.ours == ours
}

// Some peer has them.
pub fn is_known(p: Peers, node: u32, theirs: u32, ours: u32) -> bool
    requires { PeersRep p }
    ensures { result ≡ any (is_peer node theirs ours) (peers_of p) }
{
    p.list[..p.count]
        .iter()
        .any(|e| is_peer(*e, node, theirs, ours))
}

// The peer, heard now if it has them.
fn contacted(p: Peer, node: u32, theirs: u32, ours: u32, clock: u64) -> Peer
    ensures { peer_of result ≡ contacted node theirs ours clock (peer_of p) }
{
    if is_peer(p, node, theirs, ours) {
        Peer {
            contact: clock,
            ..p
        }
    } else {
        p
    }
}

// The peers, the one that has them heard now.
pub fn with_contact(mut p: Peers, node: u32, theirs: u32, ours: u32, clock: u64) -> Peers
    requires { PeersRep p }
    ensures { PeersRep result × (peers_of result ≡ map (contacted node theirs ours clock) (peers_of p)) }
{
    // By index: of an `iter_mut` over a part of the list the proof knows nothing afterwards.
    for i in 0..p.count {
        p.list[i] = contacted(p.list[i], node, theirs, ours, clock);
    }
    p
}

// One peer more, the last.
pub fn add(mut p: Peers, e: Peer) -> Peers
    requires { PeersRep p × (p.count < most_peers) }
    ensures { PeersRep result × (peers_of result ≡ peers_of p ++ (peer_of e ∷ [])) }
{
    p.list[p.count] = e;
    p.count += 1;
    p
}
