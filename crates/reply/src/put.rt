// Replies into the lent room, and the requests among them.
ghost use Rattle.std.specs.Prelude.{◌≡◌, eqb, cond, [], ◌++◌, ◌+◌, ◌≤◌, ◌<◌, length};
ghost use Rattle.base.specs.Bytes.{most_u32};
ghost use Rattle.base.specs.Memory.{written};
ghost use Rattle.model.specs.Figures.{most_endpoints, most_bytes, last_reading};
ghost use Rattle.model.specs.Messages.{endpoint_tlv, request_node_tlv};
ghost use Rattle.model.specs.Handle.{reply, ask_network};
ghost use Rattle.reply.specs.View.{context_of, Writable, Writes};

use crate::{Context, Progress};
use base::memory::store;
use message::{put_endpoint, request_network_tlv, request_node_tlv};
use model::figures::{MOST_BYTES, REQUEST_GAP};
use node::Endpoint;

// The bytes that precede a reply after `used` bytes: our Node Endpoint TLV precedes the first.
fn head_size(used: usize) -> usize
    ensures { (result ≡ cond (eqb used 0) 12 0) × (result ≤ 12) }
{
    if used == 0 { 12 } else { 0 }
}

// What precedes a reply after `used` bytes; the place after it.
fn put_head(room: &mut [u8], used: usize, own: u32, endpoint: u32) -> usize
    requires { (used ≤ most_bytes) × (used + cond (eqb used 0) 12 0 ≤ length room.old) }
    ensures { (result ≡ used + cond (eqb used 0) 12 0) × (room.new ≡ written room.old used (cond (eqb used 0) (endpoint_tlv own endpoint) [])) }
{
    if used == 0 {
        put_endpoint(room, used, own, endpoint);
    }
    used + head_size(used)
}

// A reply TLV, given in two parts; omitted where it does not fit whole.
pub fn reply(d: Progress, room: &mut [u8], c: Context, front: &[u8], back: &[u8]) -> Progress
    requires { Writable d room.old × ((d.omitted < most_u32) × (length front.now + length back.now ≤ most_bytes)) }
    ensures { Writes c 1 (reply (context_of c) (front.now ++ back.now)) d room.old result room.new }
{
    let used = d.used;
    let need = head_size(used) + front.len() + back.len();
    if MOST_BYTES - used < need {
        return Progress {
            omitted: d.omitted + 1,
            ..d
        };
    }
    let at = put_head(room, used, c.own, c.endpoint);
    let mid = at + front.len();
    store(room, at, front);
    store(room, mid, back);
    Progress {
        used: mid + back.len(),
        ..d
    }
}

// A request for one node's state.
pub fn ask_node(d: Progress, mem: &[u8], room: &mut [u8], c: Context, node: u32) -> Progress
    requires { Writable d room.old × (d.omitted < most_u32) }
    ensures { Writes c 1 (reply (context_of c) (request_node_tlv node)) d room.old result room.new }
{
    let tlv = request_node_tlv(node);
    reply(d, room, c, &tlv, &mem[0..0])
}

// The request for network state: at most one in 200 ms on an endpoint, counted from one that was written.
pub fn ask_network(d: Progress, mem: &[u8], room: &mut [u8], c: Context) -> Progress
    requires { Writable d room.old × ((d.omitted < most_u32) × ((c.clock ≤ last_reading) × ((1 ≤ c.endpoint) × (c.endpoint ≤ most_endpoints)))) }
    ensures { Writes c 1 (ask_network (context_of c)) d room.old result room.new }
{
    if c.clock < d.local.next {
        return d;
    }
    let tlv = request_network_tlv();
    let v = reply(d, room, c, &tlv, &mem[0..0]);
    if v.used == d.used {
        return v;
    }
    let local = Endpoint {
        next: c.clock + REQUEST_GAP,
        ..v.local
    };
    Progress { local, ..v }
}
