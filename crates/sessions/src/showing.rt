// Calls that sum or show: each prints its answer.
ghost use Rattle.std.specs.Prelude.{◌≤◌, length};
ghost use Rattle.ledger.specs.Promises.{AsLeft};

use crate::command::Show;
use console::output::StandardOutput;
use ledger::answers::Saved;
use ledger::look;
use listing::answers::{marked, summed, with_bytes};
use node::State;

// Of one household.
fn total(out: &mut StandardOutput, s: State, mem: &[u8], clock: u64, household: u32)
    requires { AsLeft s mem.now }
{
    let a = look::pingvratha_total(s, mem, clock, household);
    summed(out, b"total ", a.number, a.value, a.unread);
}

// Of all households.
fn sum(out: &mut StandardOutput, s: State, mem: &[u8], clock: u64)
    requires { AsLeft s mem.now }
{
    let a = look::pingvratha_sum(s, mem, clock);
    summed(out, b"sum ", a.number, a.value, a.unread);
}

// The reachable nodes, the last level and the network digest.
fn marks(out: &mut StandardOutput, s: State, mem: &[u8], clock: u64)
    requires { AsLeft s mem.now }
{
    let a = look::pingvratha_marks(s, mem, clock);
    marked(out, a.number, a.count, a.levels, &a.digest, &a.nodes);
}

// One node's data.
fn show(out: &mut StandardOutput, s: State, mem: &[u8], node: u32)
    requires { AsLeft s mem.now }
{
    let number = look::pingvratha_show_refusal(s, mem, node);
    with_bytes(out, "show", number, look::show(s, mem, node));
}

// The call of the line.
pub fn tell(out: &mut StandardOutput, call: Show, s: State, mem: &[u8])
    requires { AsLeft s mem.now }
{
    match call {
        Show::Total { clock, household } => total(out, s, mem, clock, household),
        Show::Sum { clock } => sum(out, s, mem, clock),
        Show::Marks { clock } => marks(out, s, mem, clock),
        Show::Node { id } => show(out, s, mem, id),
    }
}

// The snapshot, written to the front of the room.
pub fn save(out: &mut StandardOutput, s: State, mem: &[u8], room: &mut [u8], clock: u64) -> Saved
    requires { AsLeft s mem.now }
    ensures { (result.length ≤ length room.old) × (result.length ≤ length room.new) }
{
    let a = look::pingvratha_save(s, mem, room, clock);
    with_bytes(out, "save", a.number, &room[..a.length]);
    a
}
