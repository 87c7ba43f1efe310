// The TLVs of a row, one after the other.
ghost use Rattle.std.specs.Prelude.{◌≡◌, true, ◌-◌, ◌≤◌, length, drop};
ghost use Rattle.std.specs.Iterator.{at_most};
ghost use Rattle.wire.specs.Row.{is_row};
ghost use Rattle.wire.specs.Tlvs.{Goes, Next};

use crate::row::{Header, tlv_at};

// What is left of a row: its TLVs from `at` on.
#[derive(Drop)]
pub struct Headers<'a> {
    row: &'a [u8],
    at: usize,
}

impl<'a> Iterator for Headers<'a> {
    type Item = Header;

    ghost can_next = { Goes };

    ghost next_gives = { Next };

    ghost remaining = { λ s. at_most (length s.row.now - s.at) };

    fn next(&mut self) -> Option<Header> {
        if self.row.len() <= self.at {
            return None;
        }
        let h = tlv_at(self.row, self.at);
        self.at = h.next;
        Some(h)
    }
}

pub fn tlvs(row: &[u8]) -> Headers<'_>
    requires { is_row row.now ≡ true }
    ensures { (result.row.now ≡ row.now) × (result.at ≡ 0) }
{
    Headers { row, at: 0 }
}

// The TLVs from place `at` on, where a row goes on.
pub fn tlvs_from(row: &[u8], at: usize) -> Headers<'_>
    requires { (at ≤ length row.now) × (is_row (drop at row.now) ≡ true) }
    ensures { (result.row.now ≡ row.now) × (result.at ≡ at) }
{
    Headers { row, at }
}
