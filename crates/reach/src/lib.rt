// Which nodes are reachable, level by level from our own, and the network digest over them (RFC 7787, 4.6 and 4.1.1).
#![tactic(auto)]

pub mod digest;
pub mod front;
pub mod link;
pub mod list;
pub mod mark;

ghost use Rattle.std.specs.Prelude.{◌≡◌, true};
ghost use Rattle.base.specs.Lists.{is_some};
ghost use Rattle.model.specs.Table.{look};
ghost use Rattle.table.specs.View.{view};
ghost use Rattle.reach.specs.Marks.{Readable, Reaching};

use model::figures::MOST_NODES;
use table::Table;

// Marks for the places of the table, the number of the last level, and the network digest.
#[repr(C)]
#[derive(Clone, Copy)]
pub struct Reached {
    pub marks: [bool; MOST_NODES],
    pub levels: usize,
    pub digest: [u8; 16],
}

// Marks, last level and digest of the table as our own node sees it at a reading.
pub fn reach(t: Table, mem: &[u8], own: u32, clock: u64) -> Reached
    requires { Readable clock t mem.now × (is_some (look own (view t mem.now)) ≡ true) }
    ensures { Reaching own clock (view t mem.now) result }
{
    let m = mark::mark(t, mem, own, clock);
    let marks = m.marks;
    Reached {
        marks,
        levels: m.levels,
        digest: digest::network_digest(t, marks),
    }
}
