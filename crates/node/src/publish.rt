// Publishing: our own node's entry with another number, and with a TLV put in or taken out.
ghost use Rattle.std.specs.Prelude.{◌≡◌, true, ◌+◌, ◌-◌, ◌≤◌, length};
ghost use Rattle.base.specs.Lists.{is_some};
ghost use Rattle.base.specs.Memory.{part, written, cut};
ghost use Rattle.wire.specs.Row.{is_row};
ghost use Rattle.model.specs.Figures.{data_limit};
ghost use Rattle.model.specs.State.{own_seq, own_data, publish_as, with_tlv};
ghost use Rattle.model.specs.Table.{look};
ghost use Rattle.table.specs.View.{view, Kept, Stands};
ghost use Rattle.node.specs.View.{state_of, Rep, Held, Published};

use crate::State;
use base::memory::{insert_bytes, remove_bytes};
use table::{
    Table, Version, data_of, find, insert_tlv, meta_at, publish_slot, remove_tlv, start_of,
};
use wire::order::place_of;

// `size` bytes of our data, from `start` on.
#[derive(Clone, Copy, PartialEq, Eq, Debug)]
pub struct Span {
    pub start: usize,
    pub size: usize,
}

// The place of our own node in the table.
pub fn own_place(t: Table, mem: &[u8], own: u32) -> usize
    requires { Kept t mem.now × (is_some (look own (view t mem.now)) ≡ true) }
    ensures { Stands t own result }
{
    find(t, own).unwrap()
}

// Our own node's sequence number.
pub fn own_seq(s: State, mem: &[u8]) -> u32
    requires { Rep s mem.now × Held s mem.now }
    ensures { result ≡ own_seq (state_of s mem.now) }
{
    meta_at(s.table, own_place(s.table, mem, s.own)).seq
}

// What our own node publishes, as a part of the table memory.
pub fn own_data<'a>(s: State, mem: &'a [u8]) -> &'a [u8]
    requires { Rep s mem.now × Held s mem.now }
    ensures { result.now ≡ own_data (state_of s mem.now) }
{
    data_of(s.table, mem, own_place(s.table, mem, s.own))
}

// The number `seq` for our own node, and a TLV put in its place in its data. This, `publish_cut` and `publish_swap` are three steps of the table.
pub fn publish_with(mut s: State, mem: &mut [u8], clock: u64, seq: u32, tlv: &[u8]) -> State
    requires { Rep s mem.old × (Held s mem.old × ((is_row (own_data (state_of s mem.old)) ≡ true) × (length (own_data (state_of s mem.old)) + length tlv.now ≤ data_limit))) }
    ensures { Published (publish_as clock seq (with_tlv tlv.now (own_data (state_of s mem.old))) (state_of s mem.old)) s mem.old result mem.new }
{
    let i = own_place(s.table, mem, s.own);
    let p = place_of(data_of(s.table, mem, i), tlv);
    s.table = insert_tlv(s.table, mem, i, Version::anew(s.own, seq, clock), p, tlv);
    s
}

// The number `seq` for our own node, and its data without the n bytes from place p.
pub fn publish_cut(mut s: State, mem: &mut [u8], clock: u64, seq: u32, p: usize, n: usize) -> State
    requires { Rep s mem.old × (Held s mem.old × (p + n ≤ length (own_data (state_of s mem.old)))) }
    ensures { Published (publish_as clock seq (cut (own_data (state_of s mem.old)) p n) (state_of s mem.old)) s mem.old result mem.new }
{
    let i = own_place(s.table, mem, s.own);
    s.table = remove_tlv(s.table, mem, i, Version::anew(s.own, seq, clock), p, n);
    s
}

// Of the `len` bytes of TLVs that stand at `at` the n bytes from place p go, and a TLV is put in its place; how many bytes stand there then.
fn swap_bytes(mem: &mut [u8], at: usize, len: usize, p: usize, n: usize, tlv: &[u8]) -> usize
    requires { (p + n ≤ len) × ((at + len ≤ length mem.old) × ((at + (len - n) + length tlv.now ≤ length mem.old) × (is_row (cut (part mem.old at len) p n) ≡ true))) }
    ensures { (mem.new ≡ written mem.old at (with_tlv tlv.now (cut (part mem.old at len) p n))) × (result ≡ length (with_tlv tlv.now (cut (part mem.old at len) p n))) }
{
    remove_bytes(mem, at, len, p, n);
    let left = len - n;
    let q = place_of(&mem[at..at + left], tlv);
    insert_bytes(mem, at, left, q, tlv);
    left + tlv.len()
}

// The number `seq` for our own node, and in its data a TLV in its place for the n bytes from place p. With n = 0 nothing goes, with an empty `tlv` nothing comes.
pub fn publish_swap(
    mut s: State,
    mem: &mut [u8],
    clock: u64,
    seq: u32,
    p: usize,
    n: usize,
    tlv: &[u8],
) -> State
    requires { Rep s mem.old × (Held s mem.old × ((p + n ≤ length (own_data (state_of s mem.old))) × ((is_row (cut (own_data (state_of s mem.old)) p n) ≡ true) × (length (with_tlv tlv.now (cut (own_data (state_of s mem.old)) p n)) ≤ data_limit)))) }
    ensures { Published (publish_as clock seq (with_tlv tlv.now (cut (own_data (state_of s mem.old)) p n)) (state_of s mem.old)) s mem.old result mem.new }
{
    let i = own_place(s.table, mem, s.own);
    let e = meta_at(s.table, i);
    let len = swap_bytes(mem, start_of(e), e.len as usize, p, n, tlv);
    s.table = publish_slot(s.table, mem, i, Version::anew(s.own, seq, clock), len);
    s
}
