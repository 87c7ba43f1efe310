// The front part of good data: its TLVs ascend by type, so that all its Peer TLVs stand before the first TLV of a higher type.
ghost use Rattle.std.specs.Prelude.{◌≡◌, true, ◌≤◌, length, drop};
ghost use Rattle.wire.specs.Row.{is_row};
ghost use Rattle.wire.specs.Order.{good};
ghost use Rattle.model.specs.Figures.{data_limit, table_bytes};
ghost use Rattle.table.specs.View.{data_of, FitMeta};
ghost use Rattle.reach.specs.Parts.{Parted, Front};

use table::{Entry, bytes_of};
use wire::kind::Kind;
use wire::tlvs::tlvs_from;

// The place, from `at` on, of the first TLV whose type is `least` or more; the end where there is none. Types are numbers here, since their order counts.
pub fn place_from(d: &[u8], at: usize, least: u16) -> usize
    requires { (at ≤ length d.now) × (is_row (drop at d.now) ≡ true) }
    ensures { Parted d.now at least result }
{
    for h in tlvs_from(d, at) {
        if least <= h.kind {
            return h.at;
        }
    }
    d.len()
}

// The part up to the first TLV above the Peer TLVs.
pub fn links_front<'a>(d: &'a [u8]) -> &'a [u8]
    requires { good data_limit d.now ≡ true }
    ensures { Front d.now result.now }
{
    let end = place_from(d, 0, Kind::Peer as u16 + 1);
    &d[0..end]
}

// The front part of the data of the entry e.
pub fn front_of<'a>(e: Entry, mem: &'a [u8]) -> &'a [u8]
    requires { FitMeta e × ((table_bytes ≤ length mem.now) × (good data_limit (data_of mem.now e) ≡ true)) }
    ensures { Front (data_of mem.now e) result.now }
{
    links_front(bytes_of(e, mem))
}
