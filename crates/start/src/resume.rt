// Resuming from a snapshot.
ghost use Rattle.std.specs.Prelude.{◌≡◌, true, ◌≤◌, length};
ghost use Rattle.wire.specs.Order.{good};
ghost use Rattle.model.specs.Figures.{table_bytes, data_limit};
ghost use Rattle.model.specs.State.{own_data};
ghost use Rattle.node.specs.View.{state_of, Rep, Held, Published};
ghost use Rattle.start.specs.Started.{unlinked, ResumedFrom};

use crate::begin::{undigested, with_digest};
use crate::links::links_in;
use model::figures::MOST_ENDPOINTS;
use model::reading::Reading;
use model::sequence::advanced;
use node::State;
use node::publish::{own_data, own_seq, publish_cut};
use snapshot::load::load;

// Our data published once more, without the Peer and Keep-Alive TLVs.
fn republish(s: State, mem: &mut [u8], clock: u64) -> State
    requires { Rep s mem.old × (Held s mem.old × (good data_limit (own_data (state_of s mem.old)) ≡ true)) }
    ensures { Published (unlinked clock (state_of s mem.old)) s mem.old result mem.new }
{
    let links = links_in(own_data(s, mem));
    let seq = advanced(own_seq(s, mem), 1);
    publish_cut(s, mem, clock, seq, links.start, links.size)
}

// The node of the snapshot in `bytes`, or none, with the table memory as it was.
pub fn resume(
    bytes: &[u8],
    mem: &mut [u8],
    clock: Reading,
    randoms: [u32; MOST_ENDPOINTS],
) -> Option<State>
    requires { table_bytes ≤ length mem.old }
    ensures { ResumedFrom clock bytes.now randoms mem.old result mem.new }
{
    let now = clock.milliseconds();
    let loaded = load(bytes, mem, now)?;
    let begun = undigested(loaded.own, clock, randoms, loaded.table);
    let published = republish(begun, mem, now);
    Some(with_digest(published, mem, now))
}
