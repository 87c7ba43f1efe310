// A reading of the clock that a call may be made at.
ghost use Rattle.std.specs.Prelude.{ℕ, ◌≡◌, [], ◌∷◌, ◌≤◌, IfOk};
ghost use Rattle.model.specs.Figures.{last_reading};
ghost use Rattle.model.specs.Numbers.{number_of};
ghost use Rattle.model.specs.Refusals.{first_of, late};

use crate::figures::LAST_READING;
use crate::numbers::Refusal;
use std::marker::Model;

// In milliseconds. Clauses see the number, which is never above the last reading.
#[derive(Clone, Copy)]
pub struct Reading {
    milliseconds: u64,
}

impl Model for Reading {
    ghost Value = { ℕ };

    ghost view = { λ r. r.milliseconds };

    ghost invariant = { λ r. r.milliseconds ≤ last_reading };

    ghost inverse = { λ n. record { milliseconds = n } };
}

impl Reading {
    // The reading of a host's clock, if it is not too high.
    pub fn of(clock: u64) -> Result<Reading, Refusal>
        ensures accepted { IfOk result (λ r. r ≡ clock) }
        ensures refused { number_of result ≡ first_of (late clock ∷ []) }
    {
        if LAST_READING < clock {
            return Err(Refusal::ClockTooHigh);
        }
        Ok(Reading {
            milliseconds: clock,
        })
    }

    // The reading 0: none is before it.
    pub fn zero() -> Reading
        ensures { result ≡ 0 }
    {
        Reading { milliseconds: 0 }
    }

    pub fn milliseconds(self) -> u64
        ensures same { result ≡ self }
        ensures within { result ≤ last_reading }
    {
        self.milliseconds
    }
}
