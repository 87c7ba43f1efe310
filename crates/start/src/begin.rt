// Beginning: our node alone.
ghost use Rattle.std.specs.Prelude.{◌≡◌, List, [], ℕ, ◌≤◌, length};
ghost use Rattle.model.specs.Figures.{most_endpoints, table_bytes};
ghost use Rattle.model.specs.Begin.{fresh_endpoint, fresh_endpoints, begun};
ghost use Rattle.table.specs.View.{view, Kept};
ghost use Rattle.reach.specs.Marks.{Readable};
ghost use Rattle.node.specs.View.{endpoint_of, endpoints_of, peers_of, state_of, PeersRep, Rep, Held, Moved};
ghost use Rattle.start.specs.Started.{undigested, digested};

use model::figures::{LEAST_INTERVAL, MOST_ENDPOINTS, MOST_PEERS, USUAL_INTERVAL};
use model::reading::Reading;
use node::endpoints::quiet_from;
use node::peers::{Peer, Peers};
use node::{Endpoint, State};
use reach::reach;
use table::Table;
use trickle::Trickle;

// An endpoint whose interval begins now, with nothing requested yet, as if it had sent just now.
fn fresh_endpoint(clock: Reading, random: u32) -> Endpoint
    ensures { endpoint_of result ≡ fresh_endpoint clock random }
{
    let now = clock.milliseconds();
    Endpoint {
        trickle: Trickle::fresh(now, LEAST_INTERVAL, random),
        next: 0,
        keep: USUAL_INTERVAL,
        quiet: quiet_from(clock, random),
    }
}

// All four.
pub fn fresh_endpoints(clock: Reading, randoms: [u32; MOST_ENDPOINTS]) -> [Endpoint; MOST_ENDPOINTS]
    ensures { (length result ≡ most_endpoints) × (endpoints_of result ≡ fresh_endpoints clock randoms) }
{
    randoms.map(|random| fresh_endpoint(clock, random))
}

// No peer at all.
pub fn no_peers() -> Peers
    ensures { PeersRep result × (peers_of result ≡ []) }
{
    let none = Peer {
        node: 0,
        theirs: 0,
        ours: 0,
        contact: 0,
    };
    Peers {
        count: 0,
        list: [none; MOST_PEERS],
    }
}

// Our node with a table, its network digest not worked out yet.
pub fn undigested(own: u32, clock: Reading, randoms: [u32; MOST_ENDPOINTS], t: Table) -> State
    ensures { ((m : List ℕ) → Kept t m → Rep result m × (state_of result m ≡ undigested own clock randoms (view t m))) × (result.table ≡ t) }
{
    State {
        own,
        last: clock.milliseconds(),
        table: t,
        peers: no_peers(),
        endpoints: fresh_endpoints(clock, randoms),
        digest: [0; 16],
    }
}

// The state with the network digest at the reading.
pub fn with_digest(s: State, mem: &[u8], clock: u64) -> State
    requires { Rep s mem.now × (Readable clock s.table mem.now × Held s mem.now) }
    ensures { Moved (digested clock (state_of s mem.now)) mem.now result mem.now × (result.table ≡ s.table) }
{
    let found = reach(s.table, mem, s.own, clock);
    let digest = found.digest;
    State { digest, ..s }
}

// Our node alone: number 0, no data, age 0.
pub fn begin(own: u32, clock: Reading, randoms: [u32; MOST_ENDPOINTS], mem: &[u8]) -> State
    requires { table_bytes ≤ length mem.now }
    ensures { Moved (begun own clock randoms) mem.now result mem.now }
{
    let now = clock.milliseconds();
    let t = table::begin(own, now, mem);
    let s = undigested(own, clock, randoms, t);
    with_digest(s, mem, now)
}
