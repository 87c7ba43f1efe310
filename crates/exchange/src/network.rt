// Network State TLVs.
ghost use Rattle.std.specs.Prelude.{List, ℕ};
ghost use Rattle.model.specs.Handle.{on_network};
ghost use Rattle.node.specs.declared.peers.Peers.{Peers};
ghost use Rattle.reply.specs.View.{context_of, Markable};
ghost use Rattle.exchange.specs.Told.{Told};

use crate::marks::refreshed;
use crate::{Act, Step, still};
use reply::{Context, Progress};
use table::Table;

// A Network State TLV with this digest: ours, or another, and then a Node State about another node may come with it.
pub fn on_network(d: Progress, t: Table, mem: &[u8], c: Context, digest: &[u8]) -> Step
    requires { Markable c t d mem.now }
    ensures { (v : List ℕ) (p : Peers) → Told c 1 (on_network (context_of c) digest.now) v t p d mem.now result }
{
    let reached = refreshed(d, t, mem, c);
    let u = Progress {
        reached: Some(reached),
        ..d
    };
    if reached.digest.as_slice() == digest {
        return Step {
            progress: u,
            act: Act::Equal,
        };
    }
    if c.others {
        return still(u);
    }
    Step {
        progress: u,
        act: Act::AskNetwork,
    }
}
