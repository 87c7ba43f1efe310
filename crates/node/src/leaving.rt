// Peers that go: they leave the list, and their Peer TLVs leave our data, published once.
ghost use Rattle.std.specs.Prelude.{◌≡◌, true, not, map, ◌+◌, ◌≤◌, length};
ghost use Rattle.base.specs.Bytes.{same};
ghost use Rattle.base.specs.Lists.{any, keep_by};
ghost use Rattle.base.specs.Memory.{part, written};
ghost use Rattle.wire.specs.Row.{is_row};
ghost use Rattle.wire.specs.Order.{good};
ghost use Rattle.model.specs.Figures.{data_limit};
ghost use Rattle.model.specs.State.{own_data, peer_tlv, publish, with_peers};
ghost use Rattle.model.specs.Tick.{without_peers};
ghost use Rattle.node.specs.View.{peer_of, peers_of, state_of, PeersRep, Rep, Held, Published};

use crate::State;
use crate::peers::{Peer, Peers};
use crate::publish::own_place;
use base::memory::move_down;
use message::peer_tlv;
use model::figures::MOST_PEERS;
use model::sequence::advanced;
use table::{Version, meta_at, publish_slot, start_of};
use wire::row::tlv_at;

// The bytes are the peer's Peer TLV.
fn is_link(tlv: &[u8], p: Peer) -> bool
    ensures { result ≡ same (peer_tlv (peer_of p)) tlv.now }
{
    let link = peer_tlv(p.node, p.theirs, p.ours);
    &link[..] == tlv
}

// The bytes are the Peer TLV of a marked peer.
fn is_marked_link(tlv: &[u8], p: Peers, marks: [bool; MOST_PEERS]) -> bool
    requires { PeersRep p }
    ensures { result ≡ any (λ q. same (peer_tlv q) tlv.now) (keep_by marks (peers_of p)) }
{
    marks
        .iter()
        .zip(&p.list[..p.count])
        .any(|(goes, q)| *goes && is_link(tlv, *q))
}

// Takes the marked peers' Peer TLVs out of the `len` bytes of TLVs at `start`, in one pass; the length of what is left.
fn strip(mem: &mut [u8], start: usize, len: usize, p: Peers, marks: [bool; MOST_PEERS]) -> usize
    requires { PeersRep p × ((start + len ≤ length mem.old) × (is_row (part mem.old start len) ≡ true)) }
    ensures { (mem.new ≡ written mem.old start (without_peers (keep_by marks (peers_of p)) (part mem.old start len))) × (result ≡ length (without_peers (keep_by marks (peers_of p)) (part mem.old start len))) }
{
    let end = start + len;
    let mut at = 0;
    let mut to = 0;
    // The bytes move on the way, so no iterator can hold them.
    while at < len {
        let h = tlv_at(&mem[start..end], at);
        let a = start + at;
        let b = start + h.next;
        let goes = is_marked_link(&mem[a..b], p, marks);
        let size = h.next - at;
        let by = at - to;
        at = h.next;
        if goes {
            continue;
        }
        move_down(mem, start + to, size, by);
        to += size;
    }
    to
}

// The peers that are not marked, in their order.
fn staying(p: Peers, marks: [bool; MOST_PEERS]) -> Peers
    requires { PeersRep p }
    ensures { PeersRep result × (peers_of result ≡ keep_by (map not marks) (peers_of p)) }
{
    let mut r = p;
    let mut j = 0;
    for i in 0..p.count {
        if !marks[i] {
            r.list[j] = p.list[i];
            j += 1;
        }
    }
    r.count = j;
    r
}

// The marked peers go: our data are published without their Peer TLVs.
pub fn drop_peers(mut s: State, mem: &mut [u8], clock: u64, marks: [bool; MOST_PEERS]) -> State
    requires { Rep s mem.old × (Held s mem.old × (good data_limit (own_data (state_of s mem.old)) ≡ true)) }
    ensures { Published (with_peers (keep_by (map not marks) (state_of s mem.old).peers) (publish clock (without_peers (keep_by marks (state_of s mem.old).peers) (own_data (state_of s mem.old))) (state_of s mem.old))) s mem.old result mem.new }
{
    let i = own_place(s.table, mem, s.own);
    let e = meta_at(s.table, i);
    let len = strip(mem, start_of(e), e.len as usize, s.peers, marks);
    let v = Version::anew(s.own, advanced(e.seq, 1), clock);
    s.table = publish_slot(s.table, mem, i, v, len);
    s.peers = staying(s.peers, marks);
    s
}
