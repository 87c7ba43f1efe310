// What requests are answered with: the network's state, and one node's.
ghost use Rattle.std.specs.Prelude.{◌≡◌, IsSome, ◌++◌, ◌+◌, ◌-◌, ◌≤◌, ◌<◌, min, length};
ghost use Rattle.base.specs.Bytes.{big16, big32, most_u32};
ghost use Rattle.model.specs.Figures.{most_nodes, most_age, data_limit, last_reading};
ghost use Rattle.model.specs.Messages.{whole_state};
ghost use Rattle.model.specs.Handle.{reply, on_request_network};
ghost use Rattle.table.specs.View.{seen, view, meta_at};
ghost use Rattle.reach.specs.Marks.{Readable, Marking};
ghost use Rattle.reply.specs.View.{context_of, Writable, Open, Writes, Answers, Lists};

use crate::put::reply;
use crate::{Context, Progress};
use message::{network_tlv, state_front};
use model::figures::MOST_NODES;
use table::{Entry, Table, capped_age, data_of, meta_at};

// Header and head of the Node State of e, with `len` bytes of data.
fn node_state_front(e: Entry, clock: u64, len: u16) -> [u8; 32]
    requires { (e.since ≤ clock) × ((clock ≤ last_reading) × ((len ≤ data_limit) × (length e.hash ≡ 16))) }
    ensures { result ≡ big16 5 ++ (big16 (28 + len) ++ (big32 e.id ++ (big32 e.seq ++ (big32 (min (e.age + (clock - e.since)) most_age) ++ e.hash)))) }
{
    state_front(e.id, e.seq, capped_age(e, clock), e.hash, len as usize)
}

// A Node State without data for each reachable node, ascending; `marks` are those of the table.
fn reply_states(
    d: Progress,
    t: Table,
    mem: &[u8],
    room: &mut [u8],
    c: Context,
    marks: [bool; MOST_NODES],
) -> Progress
    requires { Readable c.clock t mem.now × (Marking c.own c.clock (view t mem.now) marks × (Writable d room.old × (d.omitted + most_nodes ≤ most_u32))) }
    ensures { Lists c t d mem.now room.old result room.new }
{
    let count = t.count;
    let mut v = d;
    for i in 0..count {
        if marks[i] {
            let front = node_state_front(meta_at(t, i), c.clock, 0);
            v = reply(v, room, c, &front, &mem[0..0]);
        }
    }
    v
}

// Our network's state, and then each reachable node's.
pub fn tell_network(d: Progress, t: Table, mem: &[u8], room: &mut [u8], c: Context) -> Progress
    requires { Open c t d mem.now room.old × IsSome d.reached }
    ensures { Answers c 33 (on_request_network (context_of c)) t d mem.now room.old result room.new }
{
    let reached = d.reached.unwrap();
    let tlv = network_tlv(reached.digest);
    let v = reply(d, room, c, &tlv, &mem[0..0]);
    reply_states(v, t, mem, room, c, reached.marks)
}

// The Node State, with data, of the node at place i.
pub fn tell_node(
    d: Progress,
    t: Table,
    mem: &[u8],
    room: &mut [u8],
    c: Context,
    i: usize,
) -> Progress
    requires { Open c t d mem.now room.old × (i < t.count) }
    ensures { Writes c 1 (reply (context_of c) (whole_state c.clock (seen mem.now (meta_at t i)))) d room.old result room.new }
{
    let e = meta_at(t, i);
    let front = node_state_front(e, c.clock, e.len);
    reply(d, room, c, &front, data_of(t, mem, i))
}
