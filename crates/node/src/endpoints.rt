// One endpoint of the four: read, written anew, and what a sending fixes for its next keep-alive.
ghost use Rattle.std.specs.Prelude.{◌≡◌, List, ℕ, length};
ghost use Rattle.model.specs.Figures.{most_endpoints};
ghost use Rattle.model.specs.State.{endpoint_at, with_endpoint, quiet_from};
ghost use Rattle.node.specs.View.{endpoint_of, state_of, Rep};

use crate::{Endpoint, State};
use model::endpoint::EndpointNumber;
use model::figures::MOST_DELAY;
use model::reading::Reading;

// Endpoint i, 1 to 4.
pub fn endpoint_at(s: State, i: EndpointNumber) -> Endpoint
    requires { length s.endpoints ≡ most_endpoints }
    ensures { (m : List ℕ) → endpoint_of result ≡ endpoint_at i (state_of s m) }
{
    s.endpoints[i.place()]
}

// The state with e for endpoint i.
pub fn with_endpoint(mut s: State, i: EndpointNumber, e: Endpoint) -> State
    requires { length s.endpoints ≡ most_endpoints }
    ensures { ((m : List ℕ) → Rep s m → Rep result m) × ((m : List ℕ) → state_of result m ≡ with_endpoint i (endpoint_of e) (state_of s m)) × (result.table ≡ s.table) }
{
    s.endpoints[i.place()] = e;
    s
}

// What a sending at the reading fixes for the next keep-alive.
pub fn quiet_from(clock: Reading, random: u32) -> u64
    ensures { result ≡ quiet_from clock random }
{
    clock.milliseconds() + u64::from(random) % (MOST_DELAY + 1)
}
