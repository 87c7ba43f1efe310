// One endpoint's Trickle state by value (RFC 6206, 4.2): each method returns the next state.
#![tactic(auto)]

ghost use Rattle.std.specs.Prelude.{◌≡◌, ◌*◌, ◌≤◌, min};
ghost use Rattle.model.specs.Figures.{least_interval, greatest_interval};
ghost use Rattle.model.specs.Trickle.{fresh, hear, reset, point_due, is_idle, event};
ghost use Rattle.trickle.specs.View.{trickle_of, event_of, Small};

use model::figures::{GREATEST_INTERVAL, LEAST_INTERVAL, MOST_COUNT, REDUNDANCY};

// When an endpoint sends: at start + point, unless an equal digest was heard since start.
#[repr(C)]
#[derive(Clone, Copy, PartialEq, Eq, Debug)]
pub struct Trickle {
    // The reading at which the interval began.
    pub start: u64,
    pub point: u64,
    pub interval: u64,
    // Equal digests heard in it.
    pub count: u32,
    // The send point has passed.
    pub spent: bool,
}

// What a tick brings: whether to send, and the state after it.
#[derive(Clone, Copy, PartialEq, Eq, Debug)]
pub struct Event {
    pub sends: bool,
    pub next: Trickle,
}

impl Trickle {
    // An interval that begins now.
    pub fn fresh(clock: u64, interval: u64, random: u32) -> Trickle
        requires { (least_interval ≤ interval) × (interval ≤ greatest_interval) }
        ensures { trickle_of result ≡ fresh clock interval random }
    {
        let half = interval / 2;
        Trickle {
            start: clock,
            point: half + u64::from(random) % half,
            interval,
            count: 0,
            spent: false,
        }
    }

    // An equal digest was heard over multicast.
    pub fn hear(self) -> Trickle
        ensures { trickle_of result ≡ hear (trickle_of self) }
    {
        Trickle {
            count: self.count.saturating_add(1).min(MOST_COUNT),
            ..self
        }
    }

    // The network digest has changed.
    pub fn reset(self, clock: u64, random: u32) -> Trickle
        ensures { trickle_of result ≡ reset clock random (trickle_of self) }
    {
        if LEAST_INTERVAL < self.interval {
            Trickle::fresh(clock, LEAST_INTERVAL, random)
        } else {
            self
        }
    }

    // The interval after this one, twice as long up to the greatest.
    fn doubled(self, clock: u64, random: u32) -> Trickle
        requires { Small self }
        ensures { trickle_of result ≡ fresh clock (min (self.interval * 2) greatest_interval) random }
    {
        Trickle::fresh(clock, (self.interval * 2).min(GREATEST_INTERVAL), random)
    }

    // The send point is unspent, and now is at or past it.
    fn is_due(self, clock: u64) -> bool
        requires { Small self }
        ensures { result ≡ point_due clock (trickle_of self) }
    {
        !self.spent && self.start + self.point <= clock
    }

    // Neither the send point nor the interval's end is due.
    pub fn is_idle(self, clock: u64) -> bool
        requires { Small self }
        ensures { result ≡ is_idle clock (trickle_of self) }
    {
        !self.is_due(clock) && clock < self.start + self.interval
    }

    // At most one event: the send point, else the interval's end.
    pub fn tick(self, clock: u64, random: u32) -> Event
        requires { Small self }
        ensures { event_of result ≡ event clock random (trickle_of self) }
    {
        if self.is_due(clock) {
            Event {
                sends: self.count < REDUNDANCY,
                next: Trickle {
                    spent: true,
                    ..self
                },
            }
        } else if self.start + self.interval <= clock {
            Event {
                sends: false,
                next: self.doubled(clock, random),
            }
        } else {
            Event {
                sends: false,
                next: self,
            }
        }
    }
}
