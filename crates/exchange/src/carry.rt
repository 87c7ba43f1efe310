// What a TLV asks for, carried out: on the progress and in the room, on the table, on the peers.
ghost use Rattle.std.specs.Prelude.{◌≡◌, true, ◌≤◌, ◌<◌, length, take, drop};
ghost use Rattle.model.specs.Figures.{most_peers};
ghost use Rattle.node.specs.View.{peers_of, PeersRep};
ghost use Rattle.table.specs.View.{version_of, Finding, Kept, Stored};
ghost use Rattle.reply.specs.Updates.{stale};
ghost use Rattle.reply.specs.View.{most_counted, Writable, Open};
ghost use Rattle.decide.specs.Decided.{Acts, Fine, HasRoom, Taken};
ghost use Rattle.exchange.specs.Told.{place_in, Counts, Notes, Answered, Answerable, takes, alters, Joinable, Links, TakenBy, TableAfter, Alterable, greets, agrees, touching, meets, greeted_in, touched_in};

use crate::Act;
use decide::Decision;
use message::peer_tlv;
use model::sequence::advanced;
use node::Endpoint;
use node::peers::{Peer, Peers, add, with_contact};
use node::publish::own_place;
use reply::put::{ask_network, ask_node};
use reply::tell::{tell_network, tell_node};
use reply::{Context, Progress, Sender};
use table::{Table, Version, data_of, insert, insert_tlv, meta_at, renumber, replace};
use wire::order::place_of;

// The 16 bytes of the digest in a Node State's value.
fn hash_in(value: &[u8]) -> [u8; 16]
    requires { 28 ≤ length value.now }
    ensures { result ≡ take 16 (drop 12 value.now) }
{
    let mut hash = [0; 16];
    hash.copy_from_slice(&value[12..28]);
    hash
}

// Marks and digest are to be worked out anew.
fn stale(d: Progress) -> Progress
    ensures { result ≡ stale d }
{
    Progress { reached: None, ..d }
}

// An equal digest: over multicast it counts.
fn counted(d: Progress, c: Context) -> Progress
    ensures { Counts c d result }
{
    if c.unicast {
        return d;
    }
    let local = Endpoint {
        trickle: d.local.trickle.hear(),
        ..d.local
    };
    Progress { local, ..d }
}

// The progress once it is decided: a request, one dropped more, or marks and digest to be worked out anew.
fn noted(d: Progress, mem: &[u8], room: &mut [u8], c: Context, decision: Decision) -> Progress
    requires { Writable d room.old × ((d.omitted ≤ most_counted) × (d.dropped ≤ most_counted)) }
    ensures { Notes c decision d room.old result room.new }
{
    match decision {
        Decision::Ignored => d,
        Decision::Ask { node } => ask_node(d, mem, room, c, node),
        Decision::TakeNumber { .. } | Decision::TakeAll { .. } => stale(d),
        Decision::Dropped => Progress {
            dropped: d.dropped + 1,
            ..d
        },
    }
}

// What is asked for, carried out on the progress and in the room.
pub fn answered(
    d: Progress,
    t: Table,
    mem: &[u8],
    room: &mut [u8],
    c: Context,
    act: Act,
) -> Progress
    requires { Open c t d mem.now room.old × Answerable t d act }
    ensures { Answered c act t d mem.now room.old result room.new }
{
    match act {
        Act::TellNetwork => tell_network(d, t, mem, room, c),
        Act::TellNode { place } => tell_node(d, t, mem, room, c, place),
        Act::AskNetwork => ask_network(d, mem, room, c),
        Act::Greet(_) => stale(d),
        Act::Equal => counted(d, c),
        Act::Decided(decision) => noted(d, mem, room, c, decision),
    }
}

// ---- the table

// Something is to be taken into the table.
fn is_taking(decision: Decision) -> bool
    ensures { result ≡ takes decision }
{
    matches!(
        decision,
        Decision::TakeNumber { .. } | Decision::TakeAll { .. }
    )
}

// The table changes.
pub fn is_altering(act: Act) -> bool
    ensures { result ≡ alters act }
{
    match act {
        Act::Greet(_) => true,
        Act::Decided(decision) => is_taking(decision),
        _ => false,
    }
}

// The table with number, age and data of the value, for the node that stands at the place or for a new one that would.
fn stored(
    t: Table,
    mem: &mut [u8],
    value: &[u8],
    place: Result<usize, usize>,
    version: Version,
) -> Table
    requires { Kept t mem.old × (Finding t version.id place × (HasRoom t place × Fine value.now)) }
    ensures { Stored (version_of version (drop 28 value.now)) t mem.old (place_in place) result mem.new }
{
    let hash = hash_in(value);
    let bytes = &value[28..];
    match place {
        Ok(i) => replace(t, mem, i, version, hash, bytes),
        Err(i) => insert(t, mem, i, version, hash, bytes),
    }
}

// The table with what is decided on this value.
fn taken(t: Table, mem: &mut [u8], value: &[u8], decision: Decision) -> Table
    requires { Kept t mem.old × (Acts t decision × Taken t value.now decision) }
    ensures { TakenBy value.now decision t mem.old result mem.new }
{
    match decision {
        Decision::TakeNumber { place, version } => renumber(t, place, version),
        Decision::TakeAll { place, version } => stored(t, mem, value, place, version),
        Decision::Ignored | Decision::Ask { .. } | Decision::Dropped => t,
    }
}

// The table with the Peer TLV of the sender among our own data.
fn linked(t: Table, mem: &mut [u8], c: Context, f: Sender) -> Table
    requires { Joinable c t mem.old }
    ensures { Links c f t mem.old result mem.new }
{
    let i = own_place(t, mem, c.own);
    let e = meta_at(t, i);
    let tlv = peer_tlv(f.node, f.endpoint, c.endpoint);
    let p = place_of(data_of(t, mem, i), &tlv);
    let v = Version::anew(c.own, advanced(e.seq, 1), c.clock);
    insert_tlv(t, mem, i, v, p, &tlv)
}

// The table after what is asked for by a TLV with this value.
pub fn altered(t: Table, mem: &mut [u8], c: Context, value: &[u8], act: Act) -> Table
    requires { Kept t mem.old × Alterable c value.now act t mem.old }
    ensures { TableAfter c value.now act t mem.old result mem.new }
{
    match act {
        Act::Greet(f) => linked(t, mem, c, f),
        Act::Decided(decision) => taken(t, mem, value, decision),
        _ => t,
    }
}

// ---- the peers

// The sender becomes a peer.
fn is_greeting(act: Act) -> bool
    ensures { result ≡ greets act }
{
    matches!(act, Act::Greet(_))
}

// The digest received is ours: the sender is in contact.
fn is_agreeing(act: Act) -> bool
    ensures { result ≡ agrees act }
{
    matches!(act, Act::Equal)
}

// The sender's last contact is set: by an equal digest, or by any TLV over unicast.
fn is_touching(f: Option<Sender>, unicast: bool, act: Act) -> bool
    ensures { result ≡ touching unicast f act }
{
    f.is_some() && (unicast || is_agreeing(act))
}

// The peers change.
pub fn is_meeting(f: Option<Sender>, unicast: bool, act: Act) -> bool
    ensures { result ≡ meets unicast f act }
{
    is_greeting(act) || is_touching(f, unicast, act)
}

// The sender as one more peer, if it becomes one.
fn joined(p: Peers, c: Context, act: Act) -> Peers
    requires { PeersRep p × (greets act ≡ true → p.count < most_peers) }
    ensures { PeersRep result × (peers_of result ≡ greeted_in c act (peers_of p)) }
{
    let Act::Greet(f) = act else {
        return p;
    };
    add(
        p,
        Peer {
            node: f.node,
            theirs: f.endpoint,
            ours: c.endpoint,
            contact: c.clock,
        },
    )
}

// The peers after what is asked for: one more, if the sender becomes one, and its last contact.
pub fn met(p: Peers, c: Context, f: Option<Sender>, act: Act) -> Peers
    requires { PeersRep p × (greets act ≡ true → p.count < most_peers) }
    ensures { PeersRep result × (peers_of result ≡ touched_in c f act (greeted_in c act (peers_of p))) }
{
    let q = joined(p, c, act);
    match f {
        Some(f) if c.unicast || is_agreeing(act) => {
            with_contact(q, f.node, f.endpoint, c.endpoint, c.clock)
        }
        _ => q,
    }
}
