// Purging: only the reachable nodes stay in the table.
ghost use Rattle.model.specs.Pay.{purged};
ghost use Rattle.model.specs.Invariant.{Midway};
ghost use Rattle.table.specs.View.{SlotsStay};
ghost use Rattle.node.specs.View.{state_of, Rep, Moved};

use model::figures::MOST_ENDPOINTS;
use model::reading::Reading;
use node::State;
use node::settle::settle;
use reach::reach;

// Only the reachable nodes stay; what stands last in a call follows.
pub fn purge(s: State, mem: &[u8], clock: Reading, randoms: [u32; MOST_ENDPOINTS]) -> State
    requires { Rep s mem.now × Midway clock (state_of s mem.now) }
    ensures { Moved (purged clock randoms (state_of s mem.now)) mem.now result mem.now × SlotsStay result.table s.table }
{
    let now = clock.milliseconds();
    let found = reach(s.table, mem, s.own, now);
    let marks = found.marks;
    let t = State {
        table: table::purge(s.table, marks),
        ..s
    };
    let again = reach(t.table, mem, t.own, now);
    settle(t, now, randoms, again)
}
