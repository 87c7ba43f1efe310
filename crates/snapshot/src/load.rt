// Loading: the whole snapshot is judged before the first byte of table memory is written.
ghost use Rattle.std.specs.Prelude.{◌≡◌, true, ℕ, ◌≤◌, length, drop};
ghost use Rattle.std.proofs.Math.Option.{none, some};
ghost use Rattle.base.specs.Lists.{or_else, is_some};
ghost use Rattle.model.specs.Figures.{most_nodes, table_bytes};
ghost use Rattle.model.specs.Snapshot.{load_entries, holds_own};
ghost use Rattle.table.specs.View.{view, Kept, Lays};
ghost use Rattle.snapshot.specs.Answers.{LoadedFrom};

use crate::read::{Cursor, head_of};
use sha256::hash16;
use table::{Table, Version};

// What was loaded: our identifier and the table.
#[derive(Clone, Copy)]
pub struct Loaded {
    pub own: u32,
    pub table: Table,
}

// The `count` entries from place `at` on fill the snapshot to its end, and our own node is among them.
fn is_whole(s: &[u8], at: usize, count: usize, own: u32) -> bool
    requires { (at ≤ length s.now) × (count ≤ most_nodes) }
    ensures { (clock : ℕ) → result ≡ is_some (or_else (load_entries clock count 0 (drop at s.now)) none (holds_own own)) }
{
    let mut cursor = Cursor { place: at, low: 0 };
    let mut held = false;
    for _k in 0..count {
        let Some(entry) = cursor.next_entry(s) else {
            return false;
        };
        held |= entry.node == own;
    }
    held && cursor.place == s.len()
}

// The entries into table and table memory.
fn fill(s: &[u8], at: usize, count: usize, mem: &mut [u8], clock: u64) -> Table
    requires { (at ≤ length s.now) × ((count ≤ most_nodes) × ((table_bytes ≤ length mem.old) × (is_some (load_entries clock count 0 (drop at s.now)) ≡ true))) }
    ensures { Kept result mem.new × ((load_entries clock count 0 (drop at s.now) ≡ some (view result mem.new)) × ((length mem.new ≡ length mem.old) × ((drop table_bytes mem.new ≡ drop table_bytes mem.old) × Lays mem.old (view result mem.new) result mem.new))) }
{
    let mut t = table::empty();
    let mut cursor = Cursor { place: at, low: 0 };
    for k in 0..count {
        let Some(entry) = cursor.next_entry(s) else {
            return t;
        };
        let bytes = &s[entry.start..cursor.place];
        let v = Version {
            id: entry.node,
            seq: entry.seq,
            age: entry.age,
            since: clock,
        };
        t = table::insert(t, mem, k, v, hash16(bytes), bytes);
    }
    t
}

// The snapshot in s, or none, with the table memory as it was.
pub fn load(s: &[u8], mem: &mut [u8], clock: u64) -> Option<Loaded>
    requires { table_bytes ≤ length mem.old }
    ensures { LoadedFrom clock s.now mem.old result mem.new }
{
    let head = head_of(s)?;
    if !is_whole(s, head.next, head.count, head.own) {
        return None;
    }
    Some(Loaded {
        own: head.own,
        table: fill(s, head.next, head.count, mem, clock),
    })
}
