// The marking: the levels round our own node, one after the other, until one adds nothing.
ghost use Rattle.std.specs.Prelude.{◌≡◌, true, false, not, ◌||◌, ℕ, ◌<◌, get_or};
ghost use Rattle.base.specs.Lists.{any, is_some};
ghost use Rattle.model.specs.Figures.{most_nodes};
ghost use Rattle.model.specs.Table.{look};
ghost use Rattle.table.specs.View.{seen, view};
ghost use Rattle.reach.specs.Marks.{Readable, Legible, Wide, leads, NextLevel, Levelled, Onward, Spread};

use crate::front::front_of;
use crate::link::is_joined;
use model::figures::{AGE_LIMIT, MOST_NODES};
use std::array::from_fn;
use table::{Entry, Table, age_at, find};

// The node of entry e is young, and joined to that of entry f.
fn is_leading(e: Entry, f: Entry, mem: &[u8], clock: u64) -> bool
    requires { Legible clock mem.now e × Legible clock mem.now f }
    ensures { result ≡ leads clock (seen mem.now e) (seen mem.now f) }
{
    age_at(e, clock) < AGE_LIMIT && is_joined(front_of(e, mem), e.id, front_of(f, mem), f.id)
}

// The nodes not yet met that the level leads to.
fn next_level(
    t: Table,
    mem: &[u8],
    clock: u64,
    level: [bool; MOST_NODES],
    met: [bool; MOST_NODES],
) -> [bool; MOST_NODES]
    requires { Readable clock t mem.now }
    ensures { NextLevel clock (view t mem.now) level met result }
{
    let mut next = [false; MOST_NODES];
    for r in 0..t.count {
        if level[r] {
            let e = t.entries[r];
            for v in 0..t.count {
                if !met[v] && is_leading(e, t.entries[v], mem, clock) {
                    next[v] = true;
                }
            }
        }
    }
    next
}

// No mark is set.
fn is_empty(marks: [bool; MOST_NODES]) -> bool
    ensures { result ≡ not (any (λ b. b) marks) }
{
    !marks.iter().any(|m| *m)
}

// The marks of either.
fn either(x: [bool; MOST_NODES], y: [bool; MOST_NODES]) -> [bool; MOST_NODES]
    ensures { Wide result × ((i : ℕ) → i < most_nodes → get_or result i false ≡ get_or x i false || get_or y i false) }
{
    from_fn(|i| x[i] || y[i])
}

// The nodes met so far, and the last level of them.
#[derive(Clone, Copy)]
pub struct Wave {
    pub met: [bool; MOST_NODES],
    pub level: [bool; MOST_NODES],
}

// One level more.
fn onward(w: Wave, next: [bool; MOST_NODES]) -> Wave
    requires { Wide next }
    ensures { Onward w next result }
{
    let met = w.met;
    Wave {
        met: either(met, next),
        level: next,
    }
}

// The marks, and how many levels come after the first, which is level 0: the number of the last.
#[derive(Clone, Copy)]
pub struct Traversed {
    pub marks: [bool; MOST_NODES],
    pub levels: usize,
}

// All that is reached from the first level, which alone is met: one pass for each level after it, and one more that adds nothing; at most 32.
fn spread(t: Table, mem: &[u8], clock: u64, first: [bool; MOST_NODES]) -> Traversed
    requires { Readable clock t mem.now }
    ensures { Spread clock (view t mem.now) first result }
{
    let mut w = Wave {
        met: first,
        level: first,
    };
    for k in 0..MOST_NODES {
        let met = w.met;
        let level = w.level;
        let next = next_level(t, mem, clock, level, met);
        if is_empty(next) {
            return Traversed {
                marks: met,
                levels: k,
            };
        }
        w = onward(w, next);
    }
    let marks = w.met;
    Traversed {
        marks,
        levels: MOST_NODES,
    }
}

// The marks of the reachable nodes, and how many levels come after our own.
pub fn mark(t: Table, mem: &[u8], own: u32, clock: u64) -> Traversed
    requires { Readable clock t mem.now × (is_some (look own (view t mem.now)) ≡ true) }
    ensures { Levelled own clock (view t mem.now) result }
{
    let mut first = [false; MOST_NODES];
    let i = find(t, own).unwrap();
    first[i] = true;
    spread(t, mem, clock, first)
}
