// A tick that is not refused.
ghost use Rattle.std.specs.Prelude.{◌≡◌, ◌≤◌, length, ◌++◌};
ghost use Rattle.base.specs.Memory.{written};
ghost use Rattle.model.specs.Figures.{most_bytes};
ghost use Rattle.model.specs.Messages.{endpoint_tlv, network_tlv};
ghost use Rattle.model.specs.Tick.{endpoint_event, after_event};
ghost use Rattle.model.specs.Invariant.{EndpointFits, Midway};
ghost use Rattle.trickle.specs.View.{event_of};
ghost use Rattle.node.specs.View.{endpoint_of, state_of, Rep};
ghost use Rattle.upkeep.specs.Ticked.{Cleared, TickedFrom};

use crate::silence::drop_silent;
use base::memory::store;
use message::{network_tlv, put_endpoint};
use model::endpoint::EndpointNumber;
use model::figures::MOST_ENDPOINTS;
use model::reading::Reading;
use node::answers::Sent;
use node::endpoints::{endpoint_at, quiet_from, with_endpoint};
use node::settle::settle;
use node::{Endpoint, State};
use reach::reach;
use trickle::{Event, Trickle};

// Node Endpoint and Network State to the front of the room.
fn announce(room: &mut [u8], own: u32, endpoint: u32, digest: [u8; 16])
    requires { (32 ≤ length room.old) × (length digest ≡ 16) }
    ensures { room.new ≡ written room.old 0 (endpoint_tlv own endpoint ++ network_tlv digest) }
{
    put_endpoint(room, 0, own, endpoint);
    store(room, 12, &network_tlv(digest));
}

// Silent peers gone, and the digest compared.
fn cleared(
    s: State,
    mem: &mut [u8],
    clock: Reading,
    endpoint: u32,
    randoms: [u32; MOST_ENDPOINTS],
) -> State
    requires { Rep s mem.old × Midway clock (state_of s mem.old) }
    ensures { Cleared clock endpoint randoms s mem.old result mem.new }
{
    let now = clock.milliseconds();
    let a = drop_silent(s, mem, clock, endpoint);
    let found = reach(a.table, mem, a.own, now);
    settle(a, now, randoms, found)
}

// The endpoint's event: Trickle's, or where neither of its two is due and the endpoint has sent nothing for its interval and delay, a keep-alive.
fn event_of(e: Endpoint, clock: Reading, random: u32) -> Event
    requires { EndpointFits clock (endpoint_of e) }
    ensures { event_of result ≡ endpoint_event clock random (endpoint_of e) }
{
    let now = clock.milliseconds();
    let t = e.trickle;
    if !t.is_idle(now) {
        t.tick(now, random)
    } else if now < e.quiet + u64::from(e.keep) {
        Event {
            sends: false,
            next: t,
        }
    } else {
        Event {
            sends: true,
            next: Trickle::fresh(now, t.interval, random),
        }
    }
}

// The endpoint after it: what is sent fixes the next delay.
fn after_event(e: Endpoint, v: Event, clock: Reading, random: u32) -> Endpoint
    ensures { endpoint_of result ≡ after_event clock random (event_of v) (endpoint_of e) }
{
    let quiet = if v.sends {
        quiet_from(clock, random)
    } else {
        e.quiet
    };
    Endpoint {
        trickle: v.next,
        quiet,
        ..e
    }
}

// At most one event on the endpoint, after silent peers have gone and the digest was compared.
pub fn tick(
    s: State,
    mem: &mut [u8],
    room: &mut [u8],
    clock: Reading,
    endpoint: EndpointNumber,
    randoms: [u32; MOST_ENDPOINTS],
) -> Sent
    requires { Rep s mem.old × (Midway clock (state_of s mem.old) × (most_bytes ≤ length room.old)) }
    ensures { TickedFrom s mem.old room.old clock endpoint randoms result mem.new room.new }
{
    let number = endpoint.number();
    let b = cleared(s, mem, clock, number, randoms);
    let e = endpoint_at(b, endpoint);
    let random = randoms[endpoint.place()];
    let v = event_of(e, clock, random);
    let r = with_endpoint(b, endpoint, after_event(e, v, clock, random));
    if !v.sends {
        return Sent {
            number: 0,
            state: r,
            length: 0,
        };
    }
    let digest = r.digest;
    announce(room, r.own, number, digest);
    Sent {
        number: 0,
        state: r,
        length: 32,
    }
}
