// Reading a snapshot's numbers: the head, and one entry after the other.
ghost use Rattle.std.specs.Prelude.{◌≤◌, length};
ghost use Rattle.snapshot.specs.Answers.{ReadEntry, ReadHead, Went};
ghost use Rattle.snapshot.specs.Numbers.{ReadNumbers};

use model::figures::{DATA_LIMIT, MOST_AGE, MOST_NODES};
use wire::groups::read_groups;
use wire::order::is_good;

// The figures as numbers that are read.
const EDITION: u64 = 1;

const MOST_NUMBER: u64 = u32::MAX as u64;

const MOST_SIZE: u64 = DATA_LIMIT as u64;

const MOST_ENTRIES: u64 = MOST_NODES as u64;

// The numbers before an entry's data, and the place after them.
#[derive(Clone, Copy)]
struct Numbers {
    node: u32,
    seq: u32,
    age: u32,
    next: usize,
}

// One entry: its numbers, and where its data stand.
#[derive(Clone, Copy)]
pub struct Saved {
    pub node: u32,
    pub seq: u32,
    pub age: u32,
    pub start: usize,
    pub size: usize,
}

// The numbers before the entries, and where the entries start.
#[derive(Clone, Copy)]
pub struct Head {
    pub own: u32,
    pub count: usize,
    pub next: usize,
}

// Where the next entry stands, and the least identifier that it may have.
#[derive(Clone, Copy)]
pub struct Cursor {
    pub place: usize,
    pub low: u64,
}

impl Cursor {
    // The next entry, if one stands there.
    pub fn next_entry(&mut self, s: &[u8]) -> Option<Saved>
        requires { self.old.place ≤ length s.now }
        ensures { Went s.now self.old result self.new }
    {
        let entry = entry_at(s, self.place, self.low)?;
        self.place = entry.start + entry.size;
        self.low = u64::from(entry.node) + 1;
        Some(entry)
    }
}

// Identifier, sequence number and age of the entry at place `at`, with an identifier from `low` on.
fn numbers_at(s: &[u8], at: usize, low: u64) -> Option<Numbers>
    requires { at ≤ length s.now }
    ensures { ReadNumbers s.now at low result }
{
    let node = read_groups(s, at, MOST_NUMBER)?;
    if node.number < low {
        return None;
    }
    let seq = read_groups(s, node.next, MOST_NUMBER)?;
    let age = read_groups(s, seq.next, MOST_AGE)?;
    Some(Numbers {
        node: node.number as u32,
        seq: seq.number as u32,
        age: age.number as u32,
        next: age.next,
    })
}

// The entry at place `at`, with an identifier from `low` on.
fn entry_at(s: &[u8], at: usize, low: u64) -> Option<Saved>
    requires { at ≤ length s.now }
    ensures { ReadEntry s.now at low result }
{
    let numbers = numbers_at(s, at, low)?;
    let last = read_groups(s, numbers.next, MOST_SIZE)?;
    let start = last.next;
    let size = last.number as usize;
    if s.len() - start < size {
        return None;
    }
    let end = start + size;
    if !is_good(&s[start..end], DATA_LIMIT) {
        return None;
    }
    Some(Saved {
        node: numbers.node,
        seq: numbers.seq,
        age: numbers.age,
        start,
        size,
    })
}

// Edition, own identifier and count.
pub fn head_of(s: &[u8]) -> Option<Head>
    ensures { ReadHead s.now result }
{
    let edition = read_groups(s, 0, EDITION)?;
    if edition.number != EDITION {
        return None;
    }
    let own = read_groups(s, edition.next, MOST_NUMBER)?;
    let count = read_groups(s, own.next, MOST_ENTRIES)?;
    if count.number < 1 {
        return None;
    }
    Some(Head {
        own: own.number as u32,
        count: count.number as usize,
        next: count.next,
    })
}
