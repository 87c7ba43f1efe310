// A datagram, TLV by TLV, and what stands last.
ghost use Rattle.std.specs.Prelude.{◌≡◌, IfSome, true, ◌≤◌, length};
ghost use Rattle.base.specs.Lists.{any};
ghost use Rattle.wire.specs.Row.{is_row, tlvs};
ghost use Rattle.wire.specs.Answers.{tlv_of, Tells};
ghost use Rattle.model.specs.Figures.{most_bytes};
ghost use Rattle.model.specs.Receive.{about_other};
ghost use Rattle.model.specs.Invariant.{Midway};
ghost use Rattle.node.specs.View.{state_of, Rep};
ghost use Rattle.exchange.specs.Datagram.{at_start, Handled};

use crate::carry::{altered, answered, is_altering, is_meeting, met};
use crate::marks::refreshed;
use crate::tlv::{is_idle, on_tlv};
use base::big_endian::read_u32;
use model::endpoint::EndpointNumber;
use model::figures::MOST_ENDPOINTS;
use model::reading::Reading;
use node::answers::Answer;
use node::settle::settled;
use node::{Endpoint, State};
use reply::{Context, Progress};
use wire::kind::Kind;
use wire::row::Header;
use wire::tlvs::tlvs;

// The TLV is a Node State, long enough, about another node.
fn is_other(s: &[u8], h: Header, own: u32) -> bool
    requires { Tells s.now h.at h }
    ensures { result ≡ about_other own (tlv_of s.now h.at h) }
{
    h.kind == Kind::NodeState as u16 && h.len >= 28 && read_u32(s, h.start) != own
}

// Such a TLV is in the datagram.
fn has_other(s: &[u8], own: u32) -> bool
    requires { is_row s.now ≡ true }
    ensures { result ≡ any (about_other own) (tlvs s.now) }
{
    for h in tlvs(s) {
        if is_other(s, h, own) {
            return true;
        }
    }
    false
}

// The same, worked out at the first Network State TLV: no other type asks.
fn looked(others: Option<bool>, s: &[u8], own: u32, kind: u16) -> Option<bool>
    requires { (is_row s.now ≡ true) × IfSome others (λ b. b ≡ any (about_other own) (tlvs s.now)) }
    ensures { IfSome result (λ b. b ≡ any (about_other own) (tlvs s.now)) × (kind ≡ 4 → result ≡ Some (any (about_other own) (tlvs s.now))) }
{
    match others {
        None if kind == Kind::NetworkState as u16 => Some(has_other(s, own)),
        _ => others,
    }
}

// No sender, nothing written, marks not worked out.
fn at_start(local: Endpoint) -> Progress
    ensures { result ≡ at_start local }
{
    Progress {
        local,
        sender: None,
        used: 0,
        omitted: 0,
        dropped: 0,
        reached: None,
    }
}

// A datagram that is not refused: TLV by TLV it is decided what is asked for, and that is carried out. One that changes nothing is skipped.
pub fn handle(
    s: State,
    mem: &mut [u8],
    room: &mut [u8],
    datagram: &[u8],
    clock: Reading,
    endpoint: EndpointNumber,
    unicast: bool,
    randoms: [u32; MOST_ENDPOINTS],
) -> Answer
    requires { Rep s mem.old × (Midway clock (state_of s mem.old) × ((most_bytes ≤ length room.old) × ((is_row datagram.now ≡ true) × (length datagram.now ≤ most_bytes)))) }
    ensures { Handled s mem.old room.old datagram.now clock endpoint unicast randoms result mem.new room.new }
{
    let now = clock.milliseconds();
    let number = endpoint.number();
    // Locals are indexed: an index into a parameter copies it whole.
    let k = (number - 1) as usize;
    let numbers = randoms;
    let random = numbers[k];
    let mut endpoints = s.endpoints;
    let local = endpoints[k];
    let call = Context {
        own: s.own,
        clock: now,
        endpoint: number,
        unicast,
        random,
        others: false,
    };
    let mut t = s.table;
    let mut p = s.peers;
    let mut d = at_start(local);
    let mut others = None;
    for h in tlvs(datagram) {
        if is_idle(unicast, d.sender.is_some(), h.kind) {
            continue;
        }
        others = looked(others, datagram, s.own, h.kind);
        let c = Context {
            others: others.unwrap_or(false),
            ..call
        };
        let value = h.value(datagram);
        let x = on_tlv(d, t, p, mem, c, h.kind, value);
        let act = x.act;
        let f = x.progress.sender;
        d = answered(x.progress, t, mem, room, c, act);
        if is_altering(act) {
            t = altered(t, mem, c, value, act);
        }
        if is_meeting(f, unicast, act) {
            p = met(p, c, f, act);
        }
    }
    let found = refreshed(d, t, mem, call);
    endpoints[k] = d.local;
    let state = settled(s.own, t, p, endpoints, s.digest, now, randoms, found);
    Answer {
        number: 0,
        state,
        length: d.used,
        omitted: d.omitted,
        dropped: d.dropped,
    }
}
