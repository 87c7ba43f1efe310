// Calls that change state: each prints its answer and returns the state after it.
ghost use Rattle.std.specs.Prelude.{◌≡◌, ◌≤◌, length, take, drop};
ghost use Rattle.ledger.specs.Promises.{AsLeft};
ghost use Rattle.sessions.specs.Kept.{Goes};

use crate::command::Change;
use console::input::filled;
use console::output::StandardOutput;
use ledger::change;
use listing::answers::{received, with_bytes};
use node::State;

// Our node alone.
fn begin(
    out: &mut StandardOutput,
    s: State,
    mem: &[u8],
    own: u32,
    clock: u64,
    random: &[u32; 4],
) -> State
    requires { AsLeft s mem.now }
    ensures { Goes s mem.now result mem.now }
{
    let a = change::pingvratha_begin(s, mem, own, clock, random);
    writeln!(out, "begin {}", a.number);
    a.state
}

// The node of a snapshot.
fn resume(
    out: &mut StandardOutput,
    s: State,
    mem: &mut [u8],
    bytes: &[u8],
    clock: u64,
    random: &[u32; 4],
) -> State
    requires { AsLeft s mem.old }
    ensures { Goes s mem.old result mem.new }
{
    let a = change::pingvratha_resume(s, mem, bytes, clock, random);
    writeln!(out, "resume {}", a.number);
    a.state
}

// A datagram came in.
fn receive(
    out: &mut StandardOutput,
    s: State,
    mem: &mut [u8],
    reply: usize,
    datagram: &[u8],
    clock: u64,
    endpoint: u32,
    is_unicast: bool,
    random: &[u32; 4],
) -> State
    requires { AsLeft s mem.old × (reply ≤ 5000) }
    ensures { Goes s mem.old result mem.new }
{
    let mut room: [u8; 65536] = filled(0);
    let a = change::pingvratha_receive(
        s,
        mem,
        &mut room[..reply],
        datagram,
        clock,
        endpoint,
        is_unicast,
        random,
    );
    received(out, a.number, a.omitted, a.dropped, &room[..a.length]);
    a.state
}

// An endpoint's time.
fn tick(
    out: &mut StandardOutput,
    s: State,
    mem: &mut [u8],
    reply: usize,
    clock: u64,
    endpoint: u32,
    random: &[u32; 4],
) -> State
    requires { AsLeft s mem.old × (reply ≤ 5000) }
    ensures { Goes s mem.old result mem.new }
{
    let mut room: [u8; 65536] = filled(0);
    let a = change::pingvratha_tick(s, mem, &mut room[..reply], clock, endpoint, random);
    with_bytes(out, "tick", a.number, &room[..a.length]);
    a.state
}

// The keep-alive interval of an endpoint.
fn keep_alive(
    out: &mut StandardOutput,
    s: State,
    mem: &mut [u8],
    clock: u64,
    endpoint: u32,
    interval: u32,
    random: &[u32; 4],
) -> State
    requires { AsLeft s mem.old }
    ensures { Goes s mem.old result mem.new }
{
    let a = change::pingvratha_keep_alive(s, mem, clock, endpoint, interval, random);
    writeln!(out, "keep-alive {}", a.number);
    a.state
}

// A payment of our own.
fn pay(
    out: &mut StandardOutput,
    s: State,
    mem: &mut [u8],
    clock: u64,
    household: u32,
    receipt: u32,
    amount: i32,
    random: &[u32; 4],
) -> State
    requires { AsLeft s mem.old }
    ensures { Goes s mem.old result mem.new }
{
    let a = change::pingvratha_pay(s, mem, clock, household, receipt, amount, random);
    writeln!(out, "pay {}", a.number);
    a.state
}

// Only the reachable nodes stay.
fn purge(out: &mut StandardOutput, s: State, mem: &[u8], clock: u64, random: &[u32; 4]) -> State
    requires { AsLeft s mem.now }
    ensures { Goes s mem.now result mem.now }
{
    let a = change::pingvratha_purge(s, mem, clock, random);
    writeln!(out, "purge {}", a.number);
    a.state
}

// The call of the line, on the memory that it is lent.
fn run(
    out: &mut StandardOutput,
    call: Change,
    s: State,
    mem: &mut [u8],
    reply: usize,
    saved: &[u8],
    bytes: &[u8],
) -> State
    requires { AsLeft s mem.old × (reply ≤ 5000) }
    ensures { Goes s mem.old result mem.new }
{
    match call {
        Change::Begin { own, clock, random } => begin(out, s, mem, own, clock, &random),
        Change::Resume {
            clock,
            random,
            is_last,
        } => {
            let snapshot = if is_last { saved } else { bytes };
            resume(out, s, mem, snapshot, clock, &random)
        }
        Change::Receive {
            clock,
            endpoint,
            is_unicast,
            random,
        } => receive(
            out, s, mem, reply, bytes, clock, endpoint, is_unicast, &random,
        ),
        Change::Tick {
            clock,
            endpoint,
            random,
        } => tick(out, s, mem, reply, clock, endpoint, &random),
        Change::KeepAlive {
            clock,
            endpoint,
            interval,
            random,
        } => keep_alive(out, s, mem, clock, endpoint, interval, &random),
        Change::Pay {
            clock,
            household,
            receipt,
            amount,
            random,
        } => pay(out, s, mem, clock, household, receipt, amount, &random),
        Change::Purge { clock, random } => purge(out, s, mem, clock, &random),
    }
}

// The call of the line: it is lent the first `table` bytes of the memory and `reply` bytes for a reply. `saved` is the last accepted save, and `bytes` are those
// of the line.
pub fn change(
    out: &mut StandardOutput,
    call: Change,
    s: State,
    memory: &mut [u8],
    table: usize,
    reply: usize,
    saved: &[u8],
    bytes: &[u8],
) -> State
    requires { AsLeft s memory.old × ((table ≤ length memory.old) × (reply ≤ 5000)) }
    ensures goes { Goes s (take table memory.old) result (take table memory.new) }
    ensures behind { drop table memory.new ≡ drop table memory.old }
    ensures left { AsLeft result memory.new }
    ensures size { length memory.new ≡ length memory.old }
{
    run(out, call, s, &mut memory[..table], reply, saved, bytes)
}
