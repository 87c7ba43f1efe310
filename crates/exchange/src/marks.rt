// Marks and digest between two TLVs.
ghost use Rattle.table.specs.View.{view};
ghost use Rattle.reach.specs.Marks.{Reaching};
ghost use Rattle.reply.specs.View.{Markable};

use reach::{Reached, reach};
use reply::{Context, Progress};
use table::Table;

// Marks and digest: worked out, unless the table is as it was when they last were.
pub fn refreshed(d: Progress, t: Table, mem: &[u8], c: Context) -> Reached
    requires { Markable c t d mem.now }
    ensures { Reaching c.own c.clock (view t mem.now) result }
{
    d.reached.unwrap_or_else(|| reach(t, mem, c.own, c.clock))
}
