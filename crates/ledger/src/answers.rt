// What calls that change nothing answer. A number is one of the documents', or 0 where the call is accepted; with another number all else is 0.
// Numbers, flags and lists with a count beside them are the C interface.
ghost use Rattle.std.specs.Prelude.{◌≡◌, pos, replicate};
ghost use Rattle.model.specs.Figures.{most_nodes};
ghost use Rattle.model.specs.Numbers.{number};

use model::figures::MOST_NODES;
use model::numbers::Refusal;

// What total and sum answer.
#[repr(C)]
#[derive(Clone, Copy)]
pub struct Summed {
    pub number: u32,
    // Cents.
    pub value: i64,
    // Payments of reachable nodes that can't be read, of whatever household.
    pub unread: u32,
}

impl Summed {
    pub fn refused(refusal: Refusal) -> Summed
        ensures { result ≡ record { number = number refusal; value = pos 0; unread = 0 } }
    {
        Summed {
            number: refusal.number(),
            value: 0,
            unread: 0,
        }
    }
}

// What marks answers.
#[repr(C)]
#[derive(Clone, Copy)]
pub struct Marked {
    pub number: u32,
    pub count: usize,
    // The number of the last level: how many steps it takes from our own node, level 0, to the farthest reachable one. The marking passes over the table once
    // more than that.
    pub levels: usize,
    // The first count are the identifiers of the reachable nodes, ascending; the others are 0.
    pub nodes: [u32; MOST_NODES],
    // The network digest.
    pub digest: [u8; 16],
}

impl Marked {
    pub fn refused(refusal: Refusal) -> Marked
        ensures { result ≡ record { number = number refusal; count = 0; levels = 0; nodes = replicate most_nodes 0; digest = replicate 16 0 } }
    {
        Marked {
            number: refusal.number(),
            count: 0,
            levels: 0,
            nodes: [0; MOST_NODES],
            digest: [0; 16],
        }
    }
}

// What save answers.
#[repr(C)]
#[derive(Clone, Copy)]
pub struct Saved {
    pub number: u32,
    // Bytes of the snapshot, at the front of what was lent for it.
    pub length: usize,
}

impl Saved {
    pub fn refused(refusal: Refusal) -> Saved
        ensures { result ≡ record { number = number refusal; length = 0 } }
    {
        Saved {
            number: refusal.number(),
            length: 0,
        }
    }
}

// What show answers: a part of the table memory.
#[repr(C)]
#[derive(Clone, Copy)]
pub struct Extent {
    pub start: usize,
    pub length: usize,
}
