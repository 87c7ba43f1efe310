// An endpoint's keep-alive interval chosen: our data say it, and are published if it is another.
ghost use Rattle.std.specs.Prelude.{◌≡◌, true, cond, [], ◌∷◌, ◌≤◌, length, eqb};
ghost use Rattle.base.specs.Lists.{join_all};
ghost use Rattle.wire.specs.Row.{is_row, tlvs};
ghost use Rattle.wire.specs.Order.{ascending, without};
ghost use Rattle.model.specs.Figures.{most_endpoints, publish_limit, usual_interval, most_keep_alive, keep_alive_bytes};
ghost use Rattle.model.specs.State.{own_data};
ghost use Rattle.model.specs.Numbers.{number_of};
ghost use Rattle.model.specs.Refusals.{first_of};
ghost use Rattle.model.specs.KeepAlive.{keep_alive_tlv, without_keep_alive, with_keep_alive, with_choice, chosen, no_room};
ghost use Rattle.model.specs.Invariant.{Midway};
ghost use Rattle.node.specs.View.{state_of, Rep, Published};
ghost use Rattle.upkeep.specs.Choice.{KeepAliveStands};

use message::keep_alive_tlv;
use model::endpoint::EndpointNumber;
use model::figures::{KEEP_ALIVE_BYTES, MOST_ENDPOINTS, PUBLISH_LIMIT, USUAL_INTERVAL};
use model::numbers::Refusal;
use model::reading::Reading;
use model::sequence::advanced;
use node::endpoints::{endpoint_at, with_endpoint};
use node::publish::{Span, own_data, own_seq, publish_swap};
use node::settle::settle;
use node::{Endpoint, State};
use reach::reach;
use wire::order::find_tlv;

// How many bytes say an interval in our data: none say the usual one.
fn size_of(interval: u32) -> usize
    ensures { result ≡ cond (eqb interval usual_interval) 0 keep_alive_bytes }
{
    if interval == USUAL_INTERVAL {
        0
    } else {
        KEEP_ALIVE_BYTES
    }
}

// Where the endpoint's Keep-Alive TLV stands in our data, which have no other than that of the interval `keep`; no bytes if there is none.
fn standing(ours: &[u8], endpoint: u32, keep: u32) -> Span
    requires { (is_row ours.now ≡ true) × ((ascending (tlvs ours.now) ≡ true) × (without_keep_alive endpoint ours.now ≡ join_all (without (keep_alive_tlv endpoint keep) (tlvs ours.now)))) }
    ensures { KeepAliveStands endpoint ours.now result }
{
    match find_tlv(ours, &keep_alive_tlv(endpoint, keep)) {
        Some(start) => Span {
            start,
            size: KEEP_ALIVE_BYTES,
        },
        None => Span { start: 0, size: 0 },
    }
}

// How long our data come to be with the interval.
fn length_with(s: State, mem: &[u8], clock: u64, endpoint: EndpointNumber, interval: u32) -> usize
    requires { Rep s mem.now × Midway clock (state_of s mem.now) }
    ensures { result ≡ length (with_keep_alive endpoint interval (own_data (state_of s mem.now))) }
{
    let number = endpoint.number();
    let e = endpoint_at(s, endpoint);
    let ours = own_data(s, mem);
    let old = standing(ours, number, e.keep);
    ours.len() - old.size + size_of(interval)
}

// Refused if our data have no room for the TLV.
pub fn refusal(
    s: State,
    mem: &[u8],
    clock: u64,
    endpoint: EndpointNumber,
    interval: u32,
) -> Result<(), Refusal>
    requires { Rep s mem.now × Midway clock (state_of s mem.now) }
    ensures { number_of result ≡ first_of (no_room endpoint interval (state_of s mem.now) ∷ []) }
{
    if PUBLISH_LIMIT < length_with(s, mem, clock, endpoint, interval) {
        return Err(Refusal::DataFull);
    }
    Ok(())
}

// The interval, and our data with it published, if it is another.
fn with_choice(
    s: State,
    mem: &mut [u8],
    clock: u64,
    endpoint: EndpointNumber,
    interval: u32,
) -> State
    requires { Rep s mem.old × (Midway clock (state_of s mem.old) × (length (with_keep_alive endpoint interval (own_data (state_of s mem.old))) ≤ publish_limit)) }
    ensures published { Published (with_choice clock endpoint interval (state_of s mem.old)) s mem.old result mem.new }
    ensures within { (1 ≤ endpoint) × (endpoint ≤ most_endpoints) }
{
    let number = endpoint.number();
    let e = endpoint_at(s, endpoint);
    if e.keep == interval {
        return s;
    }
    let old = standing(own_data(s, mem), number, e.keep);
    let seq = advanced(own_seq(s, mem), 1);
    let tlv = keep_alive_tlv(number, interval);
    let n = size_of(interval);
    let r = publish_swap(s, mem, clock, seq, old.start, old.size, &tlv[..n]);
    let f = Endpoint {
        keep: interval,
        ..e
    };
    with_endpoint(r, endpoint, f)
}

// The choice, and what stands last.
pub fn choose(
    s: State,
    mem: &mut [u8],
    clock: Reading,
    endpoint: EndpointNumber,
    interval: u32,
    randoms: [u32; MOST_ENDPOINTS],
) -> State
    requires { Rep s mem.old × (Midway clock (state_of s mem.old) × ((1 ≤ interval) × ((interval ≤ most_keep_alive) × (length (with_keep_alive endpoint interval (own_data (state_of s mem.old))) ≤ publish_limit)))) }
    ensures { Published (chosen clock endpoint interval randoms (state_of s mem.old)) s mem.old result mem.new }
{
    let now = clock.milliseconds();
    let a = with_choice(s, mem, now, endpoint, interval);
    let found = reach(a.table, mem, a.own, now);
    settle(a, now, randoms, found)
}
