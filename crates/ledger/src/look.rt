// Calls that sum, show or save: they change nothing.
ghost use Rattle.std.specs.Prelude.{◌≡◌, ◌+◌, take, drop};
ghost use Rattle.model.specs.Invariant.{Midway};
ghost use Rattle.node.specs.View.{state_of, Rep};
ghost use Rattle.ledger.specs.declared.answers.Extent.{Extent};
ghost use Rattle.ledger.specs.Promises.{AsLeft, Totals, SumsUp, Marks, Saves, Shows, ShowRefuses};
ghost use Rattle.ledger.specs.Inner.{Placed, Summing};

use crate::answers::{Extent, Marked, Saved, Summed};
use crate::refusal;
use accounts::totals::{Whose, tally};
use model::figures::TABLE_BYTES;
use model::numbers::Refusal;
use model::reading::Reading;
use node::State;
use reach::list::marked_nodes;
use reach::reach;
use table::{find, meta_at, start_of};

// What is summed over the reachable nodes.
fn summed(state: State, memory: &[u8], clock: Reading, whose: Whose) -> Summed
    requires { Rep state memory.now × Midway clock (state_of state memory.now) }
    ensures { Summing whose clock (state_of state memory.now) result }
{
    let now = clock.milliseconds();
    let found = reach(state.table, memory, state.own, now);
    let t = tally(state.table, memory, found.marks, whose);
    Summed {
        number: 0,
        value: t.value,
        unread: t.unread,
    }
}

// The total of a household over all reachable nodes.
pub fn pingvratha_total(state: State, memory: &[u8], clock: u64, household: u32) -> Summed
    requires { AsLeft state memory.now }
    ensures { Totals clock household state memory.now result }
{
    match refusal::of_household(state.last, clock, memory.len(), household) {
        Err(refusal) => Summed::refused(refusal),
        Ok(now) => summed(state, memory, now, Whose::Of(household)),
    }
}

// The sum over all households.
pub fn pingvratha_sum(state: State, memory: &[u8], clock: u64) -> Summed
    requires { AsLeft state memory.now }
    ensures { SumsUp clock state memory.now result }
{
    match refusal::of_table(state.last, clock, memory.len()) {
        Err(refusal) => Summed::refused(refusal),
        Ok(now) => summed(state, memory, now, Whose::All),
    }
}

// The reachable nodes, whose payments are summed, how far they go, and the network digest.
pub fn pingvratha_marks(state: State, memory: &[u8], clock: u64) -> Marked
    requires { AsLeft state memory.now }
    ensures { Marks clock state memory.now result }
{
    if let Err(refusal) = refusal::of_table(state.last, clock, memory.len()) {
        return Marked::refused(refusal);
    }
    let found = reach(state.table, memory, state.own, clock);
    let n = marked_nodes(state.table, found.marks);
    // Tried and the check does not read it: an array field that goes straight into a literal.
    let nodes = n.list;
    let digest = found.digest;
    Marked {
        number: 0,
        count: n.count,
        levels: found.levels,
        nodes,
        digest,
    }
}

// Writes a snapshot of all nodes held to the front of what is lent for it.
pub fn pingvratha_save(state: State, memory: &[u8], snapshot: &mut [u8], clock: u64) -> Saved
    requires { AsLeft state memory.now }
    ensures { Saves clock state memory.now snapshot.old result snapshot.new }
{
    match refusal::of_save(state.last, clock, memory.len(), snapshot.len()) {
        Err(refusal) => Saved::refused(refusal),
        Ok(now) => {
            let length = snapshot::save::save(state.table, memory, state.own, now, snapshot);
            Saved { number: 0, length }
        }
    }
}

// The node's place in the table, reachable or not.
fn place_of(state: State, memory: &[u8], node: u32) -> Result<usize, Refusal>
    requires { AsLeft state memory.now }
    ensures { Placed node state memory.now result }
{
    if memory.len() < TABLE_BYTES {
        return Err(Refusal::BufferTooSmall);
    }
    find(state.table, node).or(Err(Refusal::NoSuchNode))
}

// Where a node's data stand in the table memory, reachable or not. Length 0 for empty data, and for a refusal, whose number show_refusal gives.
pub fn pingvratha_show(state: State, memory: &[u8], node: u32) -> Extent
    requires { AsLeft state memory.now }
    ensures { Shows node state memory.now result }
{
    match place_of(state, memory, node) {
        Err(_) => Extent {
            start: 0,
            length: 0,
        },
        Ok(i) => {
            let e = meta_at(state.table, i);
            Extent {
                start: start_of(e),
                length: e.len as usize,
            }
        }
    }
}

// The number of show with the same arguments; 0 where the data are shown.
pub fn pingvratha_show_refusal(state: State, memory: &[u8], node: u32) -> u32
    requires { AsLeft state memory.now }
    ensures { ShowRefuses node state memory.now result }
{
    match place_of(state, memory, node) {
        Err(refusal) => refusal.number(),
        Ok(_) => 0,
    }
}

// The node's data, a part of the table memory; an empty part where the call is refused.
pub fn show<'a>(state: State, memory: &'a [u8], node: u32) -> &'a [u8]
    requires { AsLeft state memory.now }
    ensures { (x : Extent) × Shows node state memory.now x × (result.now ≡ take x.length (drop x.start memory.now)) × (result.ref_ptr.0 ≡ memory.entry.ref_ptr.0) × (result.ref_ptr.1 ≡ x.start + memory.entry.ref_ptr.1) }
{
    let x = pingvratha_show(state, memory, node);
    &memory[x.start..x.start + x.length]
}
