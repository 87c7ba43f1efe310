// What stands last in a call that changes state: the reading is taken, and Trickle reset where the digest has changed.
ghost use Rattle.std.specs.Prelude.{◌≡◌, cond, ℕ, length};
ghost use Rattle.base.specs.Bytes.{same};
ghost use Rattle.model.specs.Figures.{most_endpoints};
ghost use Rattle.model.specs.Trickle.{reset};
ghost use Rattle.model.specs.State.{with_trickle, reset_all};
ghost use Rattle.node.specs.View.{endpoint_of, endpoints_of, Settled};

use crate::peers::Peers;
use crate::{Endpoint, State};
use model::figures::MOST_ENDPOINTS;
use reach::Reached;
use table::Table;

// All four endpoints reset.
fn reset_all(
    mut es: [Endpoint; MOST_ENDPOINTS],
    clock: u64,
    randoms: [u32; MOST_ENDPOINTS],
) -> [Endpoint; MOST_ENDPOINTS]
    ensures { (length result ≡ most_endpoints) × (endpoints_of result ≡ reset_all clock randoms (endpoints_of es)) }
{
    // By index: with `from_fn` it stayed open which endpoint the closure reads.
    for i in 0..MOST_ENDPOINTS {
        es[i].trickle = es[i].trickle.reset(clock, randoms[i]);
    }
    es
}

// All four reset where the digest has changed, else as they are.
fn renewed(
    es: [Endpoint; MOST_ENDPOINTS],
    old: [u8; 16],
    digest: [u8; 16],
    clock: u64,
    randoms: [u32; MOST_ENDPOINTS],
) -> [Endpoint; MOST_ENDPOINTS]
    ensures { (length result ≡ most_endpoints) × (endpoints_of result ≡ cond (same old digest) (endpoints_of es) (reset_all clock randoms (endpoints_of es))) }
{
    if old == digest {
        es
    } else {
        reset_all(es, clock, randoms)
    }
}

// The state of these parts at the end of a call at the reading, where `found` are marks and digest then, and `old` is the digest of the last call.
pub fn settled(
    own: u32,
    table: Table,
    peers: Peers,
    es: [Endpoint; MOST_ENDPOINTS],
    old: [u8; 16],
    clock: u64,
    randoms: [u32; MOST_ENDPOINTS],
    found: Reached,
) -> State
    ensures { (last : ℕ) → Settled clock randoms found.digest (record { own = own; last = last; table = table; peers = peers; endpoints = es; digest = old }) result }
{
    let digest = found.digest;
    let endpoints = renewed(es, old, digest, clock, randoms);
    State {
        own,
        last: clock,
        table,
        peers,
        endpoints,
        digest,
    }
}

// The same of a whole state, of which only these fields are touched: through `settled` each call took 0.7 to 2.6 KB more stack.
pub fn settle(mut s: State, clock: u64, randoms: [u32; MOST_ENDPOINTS], found: Reached) -> State
    ensures { Settled clock randoms found.digest s result }
{
    let digest = found.digest;
    let endpoints = renewed(s.endpoints, s.digest, digest, clock, randoms);
    s.last = clock;
    s.endpoints = endpoints;
    s.digest = digest;
    s
}
