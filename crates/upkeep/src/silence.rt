// Peers that have been silent too long, and our own age.
ghost use Rattle.std.specs.Prelude.{◌≡◌, true, ◌||◌, ◌≤◌, ◌<◌, length, leb};
ghost use Rattle.base.specs.Lists.{any};
ghost use Rattle.wire.specs.Row.{is_row, tlvs};
ghost use Rattle.wire.specs.Answers.{tlv_of, Tells};
ghost use Rattle.model.specs.Figures.{refresh_age};
ghost use Rattle.model.specs.Table.{age_at};
ghost use Rattle.model.specs.State.{own_entry};
ghost use Rattle.model.specs.Tick.{is_keep_alive, interval_for, interval_in, interval_of, silent_for, goes, drop_silent};
ghost use Rattle.model.specs.Invariant.{Midway};
ghost use Rattle.table.specs.View.{view, Kept, AllGood};
ghost use Rattle.node.specs.View.{peer_of, state_of, Rep, Published};
ghost use Rattle.upkeep.specs.Ticked.{Lent, Scanned};

use base::big_endian::read_u32;
use model::figures::{MOST_PEERS, REFRESH_AGE, USUAL_INTERVAL};
use model::reading::Reading;
use node::State;
use node::leaving::drop_peers;
use node::peers::Peer;
use node::publish::own_place;
use table::{Table, age_at, data_of, find, meta_at};
use wire::kind::Kind;
use wire::row::Header;
use wire::tlvs::tlvs;

// A Keep-Alive TLV for this endpoint stands for every endpoint without one of its own.
const ALL_ENDPOINTS: u32 = 0;

// The TLV is a Keep-Alive TLV for the endpoint.
fn is_keep_alive(nd: &[u8], h: Header, endpoint: u32) -> bool
    requires { Tells nd.now h.at h }
    ensures { result ≡ is_keep_alive endpoint (tlv_of nd.now h.at h) }
{
    h.kind == Kind::KeepAlive as u16 && 8 <= h.len && read_u32(nd, h.start) == endpoint
}

// What the first Keep-Alive TLV for the endpoint says, wherever it stands in the data; `other` if there is none.
fn interval_for(nd: &[u8], endpoint: u32, other: u32) -> u32
    requires { is_row nd.now ≡ true }
    ensures { result ≡ interval_for endpoint other (tlvs nd.now) }
{
    for h in tlvs(nd) {
        if is_keep_alive(nd, h, endpoint) {
            return read_u32(nd, h.start + 4);
        }
    }
    other
}

// The interval that node data give for an endpoint: its own TLV's, else that of the TLV for all endpoints, else 20,000. Two searches: data ascend, so that one
// search for either would find the TLV for all endpoints first.
fn interval_in(nd: &[u8], endpoint: u32) -> u32
    requires { is_row nd.now ≡ true }
    ensures { result ≡ interval_in nd.now endpoint }
{
    let all = interval_for(nd, ALL_ENDPOINTS, USUAL_INTERVAL);
    interval_for(nd, endpoint, all)
}

// 10 x silence is at least 21 x interval; the product of the silence could exceed 64 bits. With an interval of 0 no keep-alives come, and no silence is too long.
fn is_silent(interval: u32, silence: u64) -> bool
    ensures { result ≡ silent_for interval silence }
{
    interval != 0 && (21 * u64::from(interval)).div_ceil(10) <= silence
}

// The interval of a peer: from its node's data, in reach or not.
fn interval_of(t: Table, mem: &[u8], p: Peer) -> u32
    requires { Kept t mem.now × AllGood (view t mem.now) }
    ensures { result ≡ interval_of (view t mem.now) (peer_of p) }
{
    match find(t, p.node) {
        Ok(i) => interval_in(data_of(t, mem, i), p.theirs),
        Err(_) => USUAL_INTERVAL,
    }
}

// The peer is on the endpoint, and has been silent too long.
fn is_going(t: Table, mem: &[u8], clock: u64, endpoint: u32, p: Peer) -> bool
    requires { Kept t mem.now × (AllGood (view t mem.now) × (p.contact ≤ clock)) }
    ensures { result ≡ goes clock endpoint (view t mem.now) (peer_of p) }
{
    p.ours == endpoint && is_silent(interval_of(t, mem, p), clock - p.contact)
}

// A mark for each of the lent peers that goes.
fn scan(peers: &[Peer], t: Table, mem: &[u8], clock: u64, endpoint: u32) -> [bool; MOST_PEERS]
    requires { Lent clock (length peers.now) t mem.now peers.now }
    ensures { Scanned clock endpoint (length peers.now) (view t mem.now) peers.now result }
{
    let mut marks = [false; MOST_PEERS];
    for (i, p) in peers.iter().enumerate() {
        marks[i] = is_going(t, mem, clock, endpoint, *p);
    }
    marks
}

// Our own age is at the limit at which we publish again.
fn is_stale(s: State, mem: &[u8], clock: Reading) -> bool
    requires { Rep s mem.now × Midway clock (state_of s mem.now) }
    ensures { result ≡ leb refresh_age (age_at clock (own_entry (state_of s mem.now))) }
{
    let i = own_place(s.table, mem, s.own);
    let e = meta_at(s.table, i);
    REFRESH_AGE <= age_at(e, clock.milliseconds())
}

// We republish: some peer goes, or our age asks for it.
fn is_republishing(s: State, mem: &[u8], clock: Reading, marks: [bool; MOST_PEERS]) -> bool
    requires { Rep s mem.now × Midway clock (state_of s mem.now) }
    ensures { result ≡ any (λ b. b) marks || leb refresh_age (age_at clock (own_entry (state_of s mem.now))) }
{
    marks.iter().any(|m| *m) || is_stale(s, mem, clock)
}

// Silent peers of the endpoint go with their Peer TLVs; published once if any went, or if our age asks for it.
pub fn drop_silent(s: State, mem: &mut [u8], clock: Reading, endpoint: u32) -> State
    requires { Rep s mem.old × Midway clock (state_of s mem.old) }
    ensures { Published (drop_silent clock endpoint (state_of s mem.old)) s mem.old result mem.new }
{
    let now = clock.milliseconds();
    let peers = &s.peers.list[..s.peers.count];
    let marks = scan(peers, s.table, mem, now, endpoint);
    if !is_republishing(s, mem, clock, marks) {
        return s;
    }
    drop_peers(s, mem, now, marks)
}
