// What calls that change state answer. A number is one of the documents', or 0 where the call is accepted; with another number all else is 0, and the
// state is the one that came in. Numbers, and lengths beside what is lent, are the C interface.
ghost use Rattle.std.specs.Prelude.{◌≡◌};
ghost use Rattle.model.specs.Numbers.{number};

use crate::State;
use model::numbers::Refusal;

// What begin, resume, pay and purge answer.
#[repr(C)]
#[derive(Clone, Copy)]
pub struct Done {
    pub number: u32,
    pub state: State,
}

impl Done {
    pub fn refused(refusal: Refusal, state: State) -> Done
        ensures { result ≡ record { number = number refusal; state = state } }
    {
        Done {
            number: refusal.number(),
            state,
        }
    }
}

// What tick answers.
#[repr(C)]
#[derive(Clone, Copy)]
pub struct Sent {
    pub number: u32,
    pub state: State,
    // Bytes to send, at the front of the room.
    pub length: usize,
}

impl Sent {
    pub fn refused(refusal: Refusal, state: State) -> Sent
        ensures { result ≡ record { number = number refusal; state = state; length = 0 } }
    {
        Sent {
            number: refusal.number(),
            state,
            length: 0,
        }
    }
}

// What receive answers.
#[repr(C)]
#[derive(Clone, Copy)]
pub struct Answer {
    pub number: u32,
    pub state: State,
    // Bytes of the reply, at the front of the room.
    pub length: usize,
    // Replies left out because the room is full; the peer asks again.
    pub omitted: u32,
    // New peers and nodes dropped because there is no place for them.
    pub dropped: u32,
}

impl Answer {
    pub fn refused(refusal: Refusal, state: State) -> Answer
        ensures { result ≡ record { number = number refusal; state = state; length = 0; omitted = 0; dropped = 0 } }
    {
        Answer {
            number: refusal.number(),
            state,
            length: 0,
            omitted: 0,
            dropped: 0,
        }
    }
}
