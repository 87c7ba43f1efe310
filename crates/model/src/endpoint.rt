// The number of one of our endpoints.
ghost use Rattle.std.specs.Prelude.{ℕ, ◌≡◌, [], ◌∷◌, ◌+◌, ◌≤◌, ◌<◌, IfOk};
ghost use Rattle.model.specs.Figures.{most_endpoints};
ghost use Rattle.model.specs.Numbers.{number_of};
ghost use Rattle.model.specs.Refusals.{first_of, no_such_endpoint};

use crate::figures::MOST_ENDPOINTS;
use crate::numbers::Refusal;
use std::marker::Model;

const LAST: u32 = MOST_ENDPOINTS as u32;

// Clauses see the number, from 1 on.
#[derive(Clone, Copy)]
pub struct EndpointNumber {
    number: u32,
}

impl Model for EndpointNumber {
    ghost Value = { ℕ };

    ghost view = { λ e. e.number };

    ghost invariant = { λ e. (1 ≤ e.number) × (e.number ≤ most_endpoints) };

    ghost inverse = { λ n. record { number = n } };
}

impl EndpointNumber {
    // The number that a host names, if we have such an endpoint.
    pub fn of(number: u32) -> Result<EndpointNumber, Refusal>
        ensures accepted { IfOk result (λ e. e ≡ number) }
        ensures refused { number_of result ≡ first_of (no_such_endpoint number ∷ []) }
    {
        if !(1..=LAST).contains(&number) {
            return Err(Refusal::NoSuchEndpoint);
        }
        Ok(EndpointNumber { number })
    }

    pub fn number(self) -> u32
        ensures same { result ≡ self }
        ensures within { (1 ≤ result) × (result ≤ most_endpoints) }
    {
        self.number
    }

    // Its place among the endpoints.
    pub fn place(self) -> usize
        ensures place { result + 1 ≡ self }
        ensures within { result < most_endpoints }
    {
        self.number as usize - 1
    }
}
