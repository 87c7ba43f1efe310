// The treasurer's report: a saved snapshot's totals as text.
#![tactic(auto)]

pub mod sums;

ghost use Rattle.std.specs.Prelude.{◌+◌, ◌≤◌, length};
ghost use Rattle.base.specs.Lists.{keep_by};
ghost use Rattle.model.specs.Figures.{table_bytes};
ghost use Rattle.model.specs.Table.{statements};
ghost use Rattle.table.specs.View.{view, Kept, AllGood};
ghost use Rattle.text.specs.Decimal.{decimal, line};
ghost use Rattle.text.specs.Room.{Put};
ghost use Rattle.report.specs.Report.{report, report_bytes, PrintedTo};
ghost use Rattle.report.specs.Steps.{Wide, Behind, SumsAre, Lent, households, lines};

use crate::sums::{HOUSEHOLDS, sum_up};
use accounts::totals::{Whose, tally};
use base::memory::store;
use model::figures::MOST_NODES;
use reach::reach;
use snapshot::load::load;
use table::Table;
use text::numbers::{put_cents, put_decimal, put_line};

// The line of a household.
fn put_household(room: &mut [u8], at: usize, household: usize, v: i64) -> usize
    requires { at + length (line (decimal household) v) ≤ length room.old }
    ensures { Put (line (decimal household) v) room.old at room.new result }
{
    let e = put_decimal(room, at, household as u64);
    put_cents(room, e, v)
}

// A line for each household that paid, ascending.
fn put_lines(sums: &[Option<i64>], room: &mut [u8], at: usize) -> usize
    requires { Wide sums.now × (at + length (lines sums.now) ≤ length room.old) }
    ensures { Put (lines sums.now) room.old at room.new result }
{
    let mut e = at;
    for h in 1..HOUSEHOLDS {
        if let Some(sum) = sums[h] {
            e = put_household(room, e, h, sum);
        }
    }
    e
}

// The report over the marked nodes.
fn put_report(
    t: Table,
    mem: &[u8],
    marks: [bool; MOST_NODES],
    sums: &mut [Option<i64>],
    room: &mut [u8],
) -> usize
    requires { Kept t mem.now × (AllGood (view t mem.now) × (Wide sums.old × (report_bytes ≤ length room.old))) }
    ensures { Put (report (statements (keep_by marks (view t mem.now)))) room.old 0 room.new result × (SumsAre (statements (keep_by marks (view t mem.now))) sums.new × Behind sums.old sums.new) }
{
    sum_up(t, mem, marks, sums);
    let all = tally(t, mem, marks, Whose::All);
    store(room, 0, b"household total\n");
    let e = put_lines(sums, room, 16);
    put_line(room, e, b"all", all.value)
}

// What the program prints for these bytes, at the front of the room; its length.
pub fn report(bytes: &[u8], mem: &mut [u8], sums: &mut [Option<i64>], room: &mut [u8]) -> usize
    requires { (table_bytes ≤ length mem.old) × ((households ≤ length sums.old) × (report_bytes ≤ length room.old)) }
    ensures { PrintedTo bytes.now room.old room.new result × Lent bytes.now mem.old sums.old mem.new sums.new }
{
    let Some(found) = load(bytes, mem, 0) else {
        store(room, 0, b"refused\n");
        return 8;
    };
    let reached = reach(found.table, mem, found.own, 0);
    put_report(found.table, mem, reached.marks, sums, room)
}
