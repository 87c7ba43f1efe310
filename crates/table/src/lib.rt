// The node table: metadata by value, sorted by identifier; node data in slots of lent memory.
#![tactic(auto)]

ghost use Rattle.std.specs.Prelude.{◌≡◌, cond, List, ◌∷◌, [], ℕ, ◌+◌, ◌-◌, ◌*◌, ◌≤◌, ◌<◌, min, length};
ghost use Rattle.base.specs.Memory.{written, spliced, cut};
ghost use Rattle.model.specs.Figures.{most_nodes, data_limit, table_bytes, most_age, last_reading};
ghost use Rattle.model.specs.Table.{entry_of, stamp, anew};
ghost use Rattle.sha256.specs.Sha256.{hash16};
ghost use Rattle.table.specs.View.{view, live, meta_at, data_of, Free, FitMeta, Arranged, Kept, Stands, Gap, Finding, Read, Stored, Renumbered, Purged, SlotUsed, with_meta, inserted, version_of, version_anew, entry_in};

use base::memory::{insert_bytes, remove_bytes, store};
use model::figures::{DATA_LIMIT, MOST_AGE, MOST_NODES};
use sha256::hash16;

// Bytes of a slot: the most that one node publishes.
const SLOT: usize = DATA_LIMIT;

// Slots: one for each node that can be held.
const SLOTS: u16 = MOST_NODES as u16;

// The fields of an entry leave no gap, 40 bytes in all: a state holds 32 of these and is copied whole. Lengths and counts beside data and lists are the C interface.

// What is held of one node. Its data are the len bytes from slot * DATA_LIMIT on in the table memory.
#[repr(C)]
#[derive(Clone, Copy)]
pub struct Entry {
    pub id: u32,
    // The sequence number.
    pub seq: u32,
    // In milliseconds, at the reading since.
    pub age: u32,
    pub len: u16,
    pub slot: u16,
    pub since: u64,
    // H of the data.
    pub hash: [u8; 16],
}

// Whose data are put in, with which number, and how old they are at the reading since.
#[derive(Clone, Copy)]
pub struct Version {
    pub id: u32,
    pub seq: u32,
    pub age: u32,
    pub since: u64,
}

impl Version {
    // The number `seq` at age 0: what our own node publishes.
    pub fn anew(id: u32, seq: u32, since: u64) -> Self
        ensures { result ≡ version_anew id seq since }
    {
        Version {
            id,
            seq,
            age: 0,
            since,
        }
    }

    // Its entry, with len bytes of data in this slot.
    fn entry(self, slot: u16, len: usize, hash: [u8; 16]) -> Entry
        requires { len ≤ data_limit }
        ensures { result ≡ entry_in self slot len hash }
    {
        Entry {
            id: self.id,
            seq: self.seq,
            age: self.age,
            len: len as u16,
            slot,
            since: self.since,
            hash,
        }
    }
}

// The nodes held, ascending by identifier: the first count entries.
#[repr(C)]
#[derive(Clone, Copy)]
pub struct Table {
    pub count: usize,
    pub entries: [Entry; MOST_NODES],
}

// ---- metadata

// The place of a node; if it is not held, the place where it would stand.
pub fn find(t: Table, id: u32) -> Result<usize, usize>
    requires { Arranged t }
    ensures { Finding t id result }
{
    t.entries[..t.count].binary_search_by_key(&id, |e| e.id)
}

// The entry at place i.
pub fn meta_at(t: Table, i: usize) -> Entry
    requires { Arranged t × (i < t.count) }
    ensures { Read t i result }
{
    t.entries[i]
}

// The age of a node at a reading.
pub fn age_at(e: Entry, clock: u64) -> u64
    requires { (e.since ≤ clock) × (clock ≤ last_reading) }
    ensures { result ≡ e.age + (clock - e.since) }
{
    u64::from(e.age) + (clock - e.since)
}

// The same as it is sent and saved: at most 2^32 - 1.
pub fn capped_age(e: Entry, clock: u64) -> u32
    requires { (e.since ≤ clock) × (clock ≤ last_reading) }
    ensures { result ≡ min (e.age + (clock - e.since)) most_age }
{
    age_at(e, clock).min(MOST_AGE) as u32
}

// The table with e at place i.
fn with_meta(mut t: Table, i: usize, e: Entry) -> Table
    requires { i < most_nodes }
    ensures { result ≡ with_meta t i e }
{
    t.entries[i] = e;
    t
}

// The entries from place i on move up by one, and e goes in there.
fn insert_meta(mut t: Table, i: usize, e: Entry) -> Table
    requires { (t.count < most_nodes) × (i ≤ t.count) }
    ensures { result ≡ inserted t i e }
{
    let count = t.count;
    t.entries.copy_within(i..count, i + 1);
    t.entries[i] = e;
    t.count = count + 1;
    t
}

// ---- slots

// Some node's data stands in slot s.
fn slot_used(t: Table, s: u16) -> bool
    requires { Arranged t }
    ensures { SlotUsed t s result }
{
    t.entries[..t.count].iter().any(|e| e.slot == s)
}

// A slot that no node uses: there is one while fewer than 32 are held.
fn free_slot(t: Table) -> u16
    requires { Arranged t × (t.count < most_nodes) }
    ensures { (result < most_nodes) × Free result (live t) }
{
    for s in 0..SLOTS {
        if !slot_used(t, s) {
            return s;
        }
    }
    // Never reached: there are more slots than nodes.
    0
}

// ---- the table with its memory

// Where the slot of the entry e starts in the memory.
pub fn start_of(e: Entry) -> usize
    ensures { result ≡ e.slot * data_limit }
{
    usize::from(e.slot) * SLOT
}

// The data of the entry e, as a part of the memory.
pub fn bytes_of<'a>(e: Entry, mem: &'a [u8]) -> &'a [u8]
    requires { FitMeta e × (table_bytes ≤ length mem.now) }
    ensures { (result.now ≡ data_of mem.now e) × ((result.ref_ptr.0 ≡ mem.entry.ref_ptr.0) × (result.ref_ptr.1 ≡ e.slot * data_limit + mem.entry.ref_ptr.1)) }
{
    let a = start_of(e);
    &mem[a..a + usize::from(e.len)]
}

// The data of the node at place i, as a part of the memory.
pub fn data_of<'a>(t: Table, mem: &'a [u8], i: usize) -> &'a [u8]
    requires { Kept t mem.now × (i < t.count) }
    ensures { (result.now ≡ data_of mem.now (meta_at t i)) × ((result.ref_ptr.0 ≡ mem.entry.ref_ptr.0) × (result.ref_ptr.1 ≡ (meta_at t i).slot * data_limit + mem.entry.ref_ptr.1)) }
{
    bytes_of(meta_at(t, i), mem)
}

// A new version for the node at place i, with its data.
pub fn replace(
    t: Table,
    mem: &mut [u8],
    i: usize,
    v: Version,
    hash: [u8; 16],
    bytes: &[u8],
) -> Table
    requires { Kept t mem.old × (Stands t v.id i × ((length bytes.now ≤ data_limit) × (hash ≡ hash16 bytes.now))) }
    ensures { Stored (version_of v bytes.now) t mem.old i result mem.new }
{
    let old = meta_at(t, i);
    let e = v.entry(old.slot, bytes.len(), hash);
    store(mem, start_of(e), bytes);
    with_meta(t, i, e)
}

// A new node, at its place i.
pub fn insert(t: Table, mem: &mut [u8], i: usize, v: Version, hash: [u8; 16], bytes: &[u8]) -> Table
    requires { Kept t mem.old × ((t.count < most_nodes) × (Gap t v.id i × ((length bytes.now ≤ data_limit) × (hash ≡ hash16 bytes.now)))) }
    ensures { Stored (version_of v bytes.now) t mem.old i result mem.new }
{
    let e = v.entry(free_slot(t), bytes.len(), hash);
    store(mem, start_of(e), bytes);
    insert_meta(t, i, e)
}

// A new version for the node at place i; its data stay.
pub fn renumber(t: Table, i: usize, v: Version) -> Table
    requires { Arranged t × Stands t v.id i }
    ensures { Renumbered v.id v.seq v.age v.since t i result }
{
    let old = meta_at(t, i);
    let e = Entry {
        id: v.id,
        seq: v.seq,
        age: v.age,
        since: v.since,
        ..old
    };
    with_meta(t, i, e)
}

// Only the nodes whose mark is set stay.
pub fn purge(t: Table, marks: [bool; MOST_NODES]) -> Table
    requires { Arranged t }
    ensures { Purged marks t result }
{
    let mut n = t;
    let mut j = 0;
    for (e, kept) in t.entries[..t.count].iter().zip(&marks) {
        // Before the test: the places behind the count are part of what C gets.
        n.entries[j] = *e;
        if *kept {
            j += 1;
        }
    }
    n.count = j;
    n
}

// ---- own data in place

// The version of the node at place i has the first `len` bytes of its slot, which were changed there before.
pub fn publish_slot(t: Table, mem: &[u8], i: usize, v: Version, len: usize) -> Table
    requires { Arranged t × (Stands t v.id i × ((len ≤ data_limit) × (table_bytes ≤ length mem.now))) }
    ensures { (m d : List ℕ) → Kept t m → length d ≡ len → mem.now ≡ written m ((meta_at t i).slot * data_limit) d → Stored (version_of v d) t m i result mem.now }
{
    let old = meta_at(t, i);
    let at = start_of(old);
    let end = at + len;
    let hash = hash16(&mem[at..end]);
    with_meta(t, i, v.entry(old.slot, len, hash))
}

// The version of the node at place i has its data with the bytes put in at place p.
pub fn insert_tlv(t: Table, mem: &mut [u8], i: usize, v: Version, p: usize, bytes: &[u8]) -> Table
    requires { Kept t mem.old × (Stands t v.id i × ((p ≤ (meta_at t i).len) × ((meta_at t i).len + length bytes.now ≤ data_limit))) }
    ensures { Stored (version_of v (spliced (data_of mem.old (meta_at t i)) p bytes.now)) t mem.old i result mem.new }
{
    let old = meta_at(t, i);
    let len = usize::from(old.len);
    insert_bytes(mem, start_of(old), len, p, bytes);
    publish_slot(t, mem, i, v, len + bytes.len())
}

// The version of the node at place i has its data without the n bytes from place p: one TLV, or several that stand together.
pub fn remove_tlv(t: Table, mem: &mut [u8], i: usize, v: Version, p: usize, n: usize) -> Table
    requires { Kept t mem.old × (Stands t v.id i × (p + n ≤ (meta_at t i).len)) }
    ensures { Stored (version_of v (cut (data_of mem.old (meta_at t i)) p n)) t mem.old i result mem.new }
{
    let old = meta_at(t, i);
    let len = usize::from(old.len);
    remove_bytes(mem, start_of(old), len, p, n);
    publish_slot(t, mem, i, v, len - n)
}

// ---- tables to start from

// No node at all.
pub fn empty() -> Table
    ensures { (m : List ℕ) → table_bytes ≤ length m → Kept result m × (view result m ≡ []) }
{
    let e = Version::anew(0, 0, 0).entry(0, 0, [0; 16]);
    Table {
        count: 0,
        entries: [e; MOST_NODES],
    }
}

// One node alone, with no data.
pub fn begin(own: u32, clock: u64, mem: &[u8]) -> Table
    requires { table_bytes ≤ length mem.now }
    ensures { Kept result mem.now × (view result mem.now ≡ entry_of own 0 [] (anew clock) ∷ []) }
{
    let e = Version::anew(own, 0, clock).entry(0, 0, hash16(&[]));
    // It stands in all places, as C gets those behind the count too.
    Table {
        count: 1,
        entries: [e; MOST_NODES],
    }
}
