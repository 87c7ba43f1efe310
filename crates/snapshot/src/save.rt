// Saving: edition, own identifier, count, then each node ascending.
ghost use Rattle.std.specs.Prelude.{◌≡◌, ◌+◌, ◌≤◌, length};
ghost use Rattle.base.specs.Memory.{written};
ghost use Rattle.model.specs.Figures.{snapshot_bytes};
ghost use Rattle.model.specs.Snapshot.{save_entry, saved};
ghost use Rattle.model.specs.Invariant.{EntryFits, TableFits};
ghost use Rattle.table.specs.View.{view, Kept, entry_with};
ghost use Rattle.snapshot.specs.Answers.{SavedTo};

use base::memory::store;
use model::reading::Reading;
use table::{Entry, Table, bytes_of, capped_age};
use wire::groups::put_groups;

// The node of entry e, whose data are the bytes, to place `at` of the room; the place after it.
fn save_entry(e: Entry, bytes: &[u8], clock: Reading, room: &mut [u8], at: usize) -> usize
    requires { EntryFits clock (entry_with e bytes.now) × ((e.len ≡ length bytes.now) × (at + 1041 ≤ length room.old)) }
    ensures { (room.new ≡ written room.old at (save_entry clock (entry_with e bytes.now))) × (result ≡ at + length (save_entry clock (entry_with e bytes.now))) }
{
    let a = put_groups(room, at, u64::from(e.id));
    let b = put_groups(room, a, u64::from(e.seq));
    let c = put_groups(room, b, u64::from(capped_age(e, clock.milliseconds())));
    let d = put_groups(room, c, u64::from(e.len));
    store(room, d, bytes);
    d + bytes.len()
}

// The snapshot to the front of the room; its size.
pub fn save(t: Table, mem: &[u8], own: u32, clock: Reading, room: &mut [u8]) -> usize
    requires { Kept t mem.now × (TableFits own clock (view t mem.now) × (snapshot_bytes ≤ length room.old)) }
    ensures { SavedTo (saved own clock (view t mem.now)) room.old room.new result }
{
    let a = put_groups(room, 0, 1);
    let b = put_groups(room, a, u64::from(own));
    let mut at = put_groups(room, b, t.count as u64);
    for e in &t.entries[..t.count] {
        at = save_entry(*e, bytes_of(*e, mem), clock, room, at);
    }
    at
}
