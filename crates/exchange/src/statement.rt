// Node State TLVs: about our own node, and about others.
ghost use Rattle.std.specs.Prelude.{◌≤◌, length};
ghost use Rattle.model.specs.Decide.{received_of};
ghost use Rattle.model.specs.Handle.{on_own_state, on_state};
ghost use Rattle.node.specs.declared.peers.Peers.{Peers};
ghost use Rattle.reply.specs.View.{context_of, Markable};
ghost use Rattle.exchange.specs.Told.{Told};

use crate::{Act, Step, still};
use base::big_endian::read_u32;
use decide::{Decision, decide, is_different};
use model::figures::RECLAIM_STEP;
use model::sequence::advanced;
use node::publish::own_place;
use reply::{Context, Progress};
use table::{Table, Version, meta_at};

// A Node State about our own node: ours is reclaimed where it is older, or as old with another digest.
fn on_own_state(d: Progress, t: Table, mem: &[u8], c: Context, value: &[u8]) -> Step
    requires { Markable c t d mem.now × (28 ≤ length value.now) }
    ensures { (p : Peers) → Told c 0 (on_own_state (context_of c) (received_of value.now)) value.now t p d mem.now result }
{
    let own = c.own;
    let place = own_place(t, mem, own);
    let e = meta_at(t, place);
    let seq = read_u32(value, 4);
    if !is_different(e, seq, &value[12..28]) {
        return still(d);
    }
    Step {
        progress: d,
        act: Act::Decided(Decision::TakeNumber {
            place,
            version: Version::anew(own, advanced(seq, RECLAIM_STEP), c.clock),
        }),
    }
}

// A Node State TLV with this value.
pub fn on_state(d: Progress, t: Table, mem: &[u8], c: Context, value: &[u8]) -> Step
    requires { Markable c t d mem.now × (28 ≤ length value.now) }
    ensures { (p : Peers) → Told c 1 (on_state (context_of c) (received_of value.now)) value.now t p d mem.now result }
{
    if read_u32(value, 0) == c.own {
        return on_own_state(d, t, mem, c, value);
    }
    Step {
        progress: d,
        act: Act::Decided(decide(t, mem, c.clock, value)),
    }
}
