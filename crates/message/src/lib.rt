// The TLVs that we send, as bytes.
#![tactic(auto)]

ghost use Rattle.std.specs.Prelude.{◌≡◌, ◌++◌, ◌+◌, ◌*◌, ◌<◌, ◌≤◌, length};
ghost use Rattle.base.specs.Bytes.{big16, big32, noughts};
ghost use Rattle.base.specs.Memory.{written};
ghost use Rattle.wire.specs.Kind.{number};
ghost use Rattle.model.specs.Figures.{data_limit};
ghost use Rattle.model.specs.State.{peer_tlv};
ghost use Rattle.model.specs.KeepAlive.{keep_alive_tlv};
ghost use Rattle.model.specs.Messages.{endpoint_tlv, network_tlv, request_network_tlv, request_node_tlv};
ghost use Rattle.message.specs.Numbers.{numbers};

use base::big_endian::{put_u16, put_u32};
use base::memory::store;
use model::figures::{KEEP_ALIVE_BYTES, PEER_BYTES};
use wire::kind::Kind;

// To place `at` the header of a TLV whose value has `size` bytes, and the numbers that its value begins with.
fn put_tlv(d: &mut [u8], at: usize, kind: Kind, size: usize, values: &[u32])
    requires { (at + 4 + 4 * length values.now ≤ length d.old) × (size < 65536) }
    ensures { d.new ≡ written d.old at (big16 (number kind) ++ (big16 size ++ numbers values.now)) }
{
    put_u16(d, at, u16::from(kind));
    put_u16(d, at + 2, size as u16);
    for (i, value) in values.iter().enumerate() {
        put_u32(d, at + 4 + 4 * i, *value);
    }
}

// A TLV of N bytes: zeros behind the numbers.
fn tlv<const N: usize>(kind: Kind, size: usize, values: &[u32]) -> [u8; N]
    requires { (4 + 4 * length values.now ≤ N) × (size < 65536) }
    ensures { result ≡ written (noughts N) 0 (big16 (number kind) ++ (big16 size ++ numbers values.now)) }
{
    let mut d = [0u8; N];
    put_tlv(&mut d, 0, kind, size, values);
    d
}

// Our Node Endpoint TLV to place `at`.
pub fn put_endpoint(room: &mut [u8], at: usize, own: u32, endpoint: u32)
    requires { at + 12 ≤ length room.old }
    ensures { room.new ≡ written room.old at (endpoint_tlv own endpoint) }
{
    put_tlv(room, at, Kind::NodeEndpoint, 8, &[own, endpoint]);
}

// The Network State TLV.
pub fn network_tlv(digest: [u8; 16]) -> [u8; 20]
    requires { length digest ≡ 16 }
    ensures { result ≡ network_tlv digest }
{
    let mut d = tlv(Kind::NetworkState, 16, &[]);
    store(&mut d, 4, &digest);
    d
}

// The Request Network State TLV.
pub fn request_network_tlv() -> [u8; 4]
    ensures { result ≡ request_network_tlv }
{
    tlv(Kind::RequestNetwork, 0, &[])
}

// The Request Node State TLV.
pub fn request_node_tlv(node: u32) -> [u8; 8]
    ensures { result ≡ request_node_tlv node }
{
    tlv(Kind::RequestNode, 4, &[node])
}

// The Peer TLV of a peer.
pub fn peer_tlv(node: u32, theirs: u32, ours: u32) -> [u8; PEER_BYTES]
    ensures { result ≡ peer_tlv (record { node = node; theirs = theirs; ours = ours; contact = 0 }) }
{
    tlv(Kind::Peer, 12, &[node, theirs, ours])
}

// Our Keep-Alive TLV of an endpoint.
pub fn keep_alive_tlv(endpoint: u32, interval: u32) -> [u8; KEEP_ALIVE_BYTES]
    ensures { result ≡ keep_alive_tlv endpoint interval }
{
    tlv(Kind::KeepAlive, 8, &[endpoint, interval])
}

// The header and the head of a Node State TLV with `len` bytes of data.
pub fn state_front(node: u32, seq: u32, age: u32, hash: [u8; 16], len: usize) -> [u8; 32]
    requires { (length hash ≡ 16) × (len ≤ data_limit) }
    ensures { result ≡ big16 5 ++ (big16 (28 + len) ++ (big32 node ++ (big32 seq ++ (big32 age ++ hash)))) }
{
    let mut d = tlv(Kind::NodeState, 28 + len, &[node, seq, age]);
    store(&mut d, 16, &hash);
    d
}
