// The calls of the library `ledger` for programs in other languages: what each does and promises stands there, at the function of its name. A slice is a
// pointer, which is not null, and a length.
#![tactic(auto)]

ghost use Rattle.accounts.specs.Tallied.{payment_of};
ghost use Rattle.ledger.specs.Promises.{AsLeft, Blank, Begins, Resumes, Receives, Ticks, Chooses, Pays, Purges, Totals, SumsUp, Marks, Saves, Shows, ShowRefuses};

use ledger::answers::{Extent, Marked, Saved, Summed};
use ledger::{blank, change, look};
use model::figures::MOST_ENDPOINTS;
use node::State;
use node::answers::{Answer, Done, Sent};

#[unsafe(no_mangle)]
pub extern "C" fn pingvratha_blank() -> State
    ensures { Blank result }
{
    blank::pingvratha_blank()
}

#[unsafe(no_mangle)]
pub extern "C" fn pingvratha_begin(
    state: State,
    memory: &[u8],
    own: u32,
    clock: u64,
    randoms: &[u32; MOST_ENDPOINTS],
) -> Done
    requires { AsLeft state memory.now }
    ensures { Begins own clock randoms.now state memory.now result }
{
    change::pingvratha_begin(state, memory, own, clock, randoms)
}

#[unsafe(no_mangle)]
pub extern "C" fn pingvratha_resume(
    state: State,
    memory: &mut [u8],
    snapshot: &[u8],
    clock: u64,
    randoms: &[u32; MOST_ENDPOINTS],
) -> Done
    requires { AsLeft state memory.old }
    ensures { Resumes snapshot.now clock randoms.now state memory.old result memory.new }
{
    change::pingvratha_resume(state, memory, snapshot, clock, randoms)
}

#[unsafe(no_mangle)]
pub extern "C" fn pingvratha_receive(
    state: State,
    memory: &mut [u8],
    room: &mut [u8],
    datagram: &[u8],
    clock: u64,
    endpoint: u32,
    unicast: bool,
    randoms: &[u32; MOST_ENDPOINTS],
) -> Answer
    requires { AsLeft state memory.old }
    ensures { Receives datagram.now clock endpoint unicast randoms.now state memory.old room.old result memory.new room.new }
{
    change::pingvratha_receive(
        state, memory, room, datagram, clock, endpoint, unicast, randoms,
    )
}

#[unsafe(no_mangle)]
pub extern "C" fn pingvratha_tick(
    state: State,
    memory: &mut [u8],
    room: &mut [u8],
    clock: u64,
    endpoint: u32,
    randoms: &[u32; MOST_ENDPOINTS],
) -> Sent
    requires { AsLeft state memory.old }
    ensures { Ticks clock endpoint randoms.now state memory.old room.old result memory.new room.new }
{
    change::pingvratha_tick(state, memory, room, clock, endpoint, randoms)
}

#[unsafe(no_mangle)]
pub extern "C" fn pingvratha_keep_alive(
    state: State,
    memory: &mut [u8],
    clock: u64,
    endpoint: u32,
    interval: u32,
    randoms: &[u32; MOST_ENDPOINTS],
) -> Done
    requires { AsLeft state memory.old }
    ensures { Chooses clock endpoint interval randoms.now state memory.old result memory.new }
{
    change::pingvratha_keep_alive(state, memory, clock, endpoint, interval, randoms)
}

#[unsafe(no_mangle)]
pub extern "C" fn pingvratha_pay(
    state: State,
    memory: &mut [u8],
    clock: u64,
    household: u32,
    receipt: u32,
    amount: i32,
    randoms: &[u32; MOST_ENDPOINTS],
) -> Done
    requires { AsLeft state memory.old }
    ensures { Pays clock (payment_of household receipt amount) randoms.now state memory.old result memory.new }
{
    change::pingvratha_pay(state, memory, clock, household, receipt, amount, randoms)
}

#[unsafe(no_mangle)]
pub extern "C" fn pingvratha_purge(
    state: State,
    memory: &[u8],
    clock: u64,
    randoms: &[u32; MOST_ENDPOINTS],
) -> Done
    requires { AsLeft state memory.now }
    ensures { Purges clock randoms.now state memory.now result }
{
    change::pingvratha_purge(state, memory, clock, randoms)
}

#[unsafe(no_mangle)]
pub extern "C" fn pingvratha_total(
    state: State,
    memory: &[u8],
    clock: u64,
    household: u32,
) -> Summed
    requires { AsLeft state memory.now }
    ensures { Totals clock household state memory.now result }
{
    look::pingvratha_total(state, memory, clock, household)
}

#[unsafe(no_mangle)]
pub extern "C" fn pingvratha_sum(state: State, memory: &[u8], clock: u64) -> Summed
    requires { AsLeft state memory.now }
    ensures { SumsUp clock state memory.now result }
{
    look::pingvratha_sum(state, memory, clock)
}

#[unsafe(no_mangle)]
pub extern "C" fn pingvratha_marks(state: State, memory: &[u8], clock: u64) -> Marked
    requires { AsLeft state memory.now }
    ensures { Marks clock state memory.now result }
{
    look::pingvratha_marks(state, memory, clock)
}

#[unsafe(no_mangle)]
pub extern "C" fn pingvratha_save(
    state: State,
    memory: &[u8],
    snapshot: &mut [u8],
    clock: u64,
) -> Saved
    requires { AsLeft state memory.now }
    ensures { Saves clock state memory.now snapshot.old result snapshot.new }
{
    look::pingvratha_save(state, memory, snapshot, clock)
}

#[unsafe(no_mangle)]
pub extern "C" fn pingvratha_show(state: State, memory: &[u8], node: u32) -> Extent
    requires { AsLeft state memory.now }
    ensures { Shows node state memory.now result }
{
    look::pingvratha_show(state, memory, node)
}

#[unsafe(no_mangle)]
pub extern "C" fn pingvratha_show_refusal(state: State, memory: &[u8], node: u32) -> u32
    requires { AsLeft state memory.now }
    ensures { ShowRefuses node state memory.now result }
{
    look::pingvratha_show_refusal(state, memory, node)
}
