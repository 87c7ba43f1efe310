// One received Node State's decision: ignored, ask, take the number only, take all, dropped.
#![tactic(auto)]

ghost use Rattle.std.specs.Prelude.{◌≡◌, ◌&&◌, List, ℕ, ◌≤◌, length};
ghost use Rattle.base.specs.Bytes.{same};
ghost use Rattle.base.specs.Lists.{is_some};
ghost use Rattle.sha256.specs.Sha256.{hash16};
ghost use Rattle.wire.specs.Order.{good};
ghost use Rattle.model.specs.Figures.{data_limit};
ghost use Rattle.model.specs.Decide.{carried_in, received_of, differs, decide};
ghost use Rattle.table.specs.View.{view, seen, Arranged, Kept, Stands, Gap};
ghost use Rattle.decide.specs.Decided.{decision_of, Acts, Taken, Fields, Decides};

use base::big_endian::read_u32;
use model::figures::{DATA_LIMIT, MOST_NODES};
use model::sequence::is_older;
use sha256::hash16;
use table::{Entry, Table, Version, find, meta_at};
use wire::order::is_good;

// Each case with what it needs; where all is taken, the node stands at the place, or as a new one would stand there.
#[derive(Clone, Copy)]
pub enum Decision {
    Ignored,
    Ask {
        node: u32,
    },
    TakeNumber {
        place: usize,
        version: Version,
    },
    TakeAll {
        place: Result<usize, usize>,
        version: Version,
    },
    Dropped,
}

// The Node State carries data: some, or none under the digest of nothing.
fn is_carrying(hash: &[u8], bytes: &[u8]) -> bool
    ensures { result ≡ is_some (carried_in hash.now bytes.now) }
{
    !bytes.is_empty() || hash == hash16(bytes).as_slice()
}

// The data are good, and their digest is the one received.
fn is_fine(hash: &[u8], bytes: &[u8]) -> bool
    ensures { result ≡ good data_limit bytes.now && same (hash16 bytes.now) hash.now }
{
    is_good(bytes, DATA_LIMIT) && hash16(bytes).as_slice() == hash
}

// Ours is older, or as old with another digest.
pub fn is_different(e: Entry, seq: u32, hash: &[u8]) -> bool
    ensures { (m v : List ℕ) → e.hash ≡ hash16 (seen m e).says.node_data → seq ≡ (received_of v).seq → hash.now ≡ (received_of v).hash → result ≡ differs (seen m e) (received_of v) }
{
    is_older(e.seq, seq) || (e.seq == seq && e.hash.as_slice() != hash)
}

// The decision on a Node State with these fields, about the node that stands at this place.
fn decide_held(t: Table, place: usize, version: Version, hash: &[u8], bytes: &[u8]) -> Decision
    requires { Arranged t × Stands t version.id place }
    ensures { (v : List ℕ) → Fields v version hash.now bytes.now → Decides version.since t v result }
{
    let e = meta_at(t, place);
    if !is_different(e, version.seq, hash) {
        return Decision::Ignored;
    }
    if is_carrying(hash, bytes) {
        if is_fine(hash, bytes) {
            return Decision::TakeAll {
                place: Ok(place),
                version,
            };
        }
        return Decision::Ignored;
    }
    if e.hash.as_slice() == hash {
        return Decision::TakeNumber { place, version };
    }
    Decision::Ask { node: version.id }
}

// The decision on a Node State with these fields, about a node that is not held and would stand at this place.
fn decide_new(t: Table, place: usize, version: Version, hash: &[u8], bytes: &[u8]) -> Decision
    requires { Arranged t × Gap t version.id place }
    ensures { (v : List ℕ) → Fields v version hash.now bytes.now → Decides version.since t v result }
{
    if MOST_NODES <= t.count {
        return Decision::Dropped;
    }
    if !is_carrying(hash, bytes) {
        return Decision::Ask { node: version.id };
    }
    if is_fine(hash, bytes) {
        return Decision::TakeAll {
            place: Err(place),
            version,
        };
    }
    Decision::Ignored
}

// The decision on the Node State with this value, about another node.
pub fn decide(t: Table, mem: &[u8], clock: u64, value: &[u8]) -> Decision
    requires { Kept t mem.now × (28 ≤ length value.now) }
    ensures { Acts t result × (Taken t value.now result × (decision_of t mem.now value.now result ≡ decide clock (view t mem.now) (received_of value.now))) }
{
    let version = Version {
        id: read_u32(value, 0),
        seq: read_u32(value, 4),
        age: read_u32(value, 8),
        since: clock,
    };
    let hash = &value[12..28];
    let bytes = &value[28..];
    match find(t, version.id) {
        Ok(place) => decide_held(t, place, version, hash, bytes),
        Err(place) => decide_new(t, place, version, hash, bytes),
    }
}
