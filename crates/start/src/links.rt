// Our Peer and Keep-Alive TLVs, types 8 and 9, in our own data: good data ascends, so that they stand one after the other.
ghost use Rattle.std.specs.Prelude.{◌≡◌, true, ◌+◌, ◌≤◌, length};
ghost use Rattle.base.specs.Memory.{cut};
ghost use Rattle.wire.specs.Order.{good};
ghost use Rattle.model.specs.Figures.{data_limit};
ghost use Rattle.model.specs.Snapshot.{without_links};

use node::publish::Span;
use reach::front::place_from;
use wire::kind::Kind;

// Where they stand: cut out, they leave the data without them.
pub fn links_in(d: &[u8]) -> Span
    requires { good data_limit d.now ≡ true }
    ensures { (result.start + result.size ≤ length d.now) × (cut d.now result.start result.size ≡ without_links d.now) }
{
    let start = place_from(d, 0, Kind::Peer as u16);
    let end = place_from(d, start, Kind::KeepAlive as u16 + 1);
    Span {
        start,
        size: end - start,
    }
}
