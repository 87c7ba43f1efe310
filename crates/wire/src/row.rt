// Rows of TLVs: whether bytes are one, the TLV at a place, and a TLV made of its value.
ghost use Rattle.std.specs.Prelude.{◌≡◌, true, ◌+◌, ◌≤◌, ◌<◌, length, take, drop};
ghost use Rattle.base.specs.Bytes.{zeros};
ghost use Rattle.base.specs.Memory.{written};
ghost use Rattle.wire.specs.Row.{padding, is_row, encode};
ghost use Rattle.wire.specs.Answers.{Size, Tells, tlv_of};

use base::big_endian::{put_u16, read_u16};

// How many zeros follow a value of n bytes.
fn pad(n: usize) -> usize
    ensures { (result ≡ padding n) × (result < 4) }
{
    (4 - n % 4) % 4
}

// The k bytes from `at` on are zero.
fn padded(s: &[u8], at: usize, k: usize) -> bool
    requires { at + k ≤ length s.now }
    ensures { result ≡ zeros (take k (drop at s.now)) }
{
    s[at..at + k].iter().all(|b| *b == 0)
}

// The size of the TLV at `at`, header and padding included, if a whole one with zero padding stands there.
pub fn size_at(s: &[u8], at: usize) -> Option<usize>
    requires { at ≤ length s.now }
    ensures { Size (drop at s.now) result }
{
    let left = s.len() - at;
    if left < 4 {
        return None;
    }
    let n = usize::from(read_u16(s, at + 2));
    let k = pad(n);
    if left - 4 < n + k || !padded(s, at + 4 + n, k) {
        return None;
    }
    Some(4 + n + k)
}

// A row of whole TLVs with zero padding.
pub fn is_row(s: &[u8]) -> bool
    ensures { result ≡ is_row s.now }
{
    // How far the next TLV is, is found out on the way.
    let mut at = 0;
    while at < s.len() {
        let Some(n) = size_at(s, at) else {
            return false;
        };
        at += n;
    }
    true
}

// One TLV of a row: it stands at `at`, its value is the len bytes from start on, and the next TLV starts at next. The type is
// a number, since any may stand in a row.
#[derive(Clone, Copy, Debug, PartialEq, Eq)]
pub struct Header {
    pub at: usize,
    pub kind: u16,
    pub len: usize,
    pub start: usize,
    pub next: usize,
}

impl Header {
    // The value, out of the row that the TLV stands in.
    pub fn value<'a>(&self, row: &'a [u8]) -> &'a [u8]
        requires { self.now.start + self.now.len ≤ length row.now }
        ensures { result.now ≡ take self.now.len (drop self.now.start row.now) }
    {
        &row[self.start..self.start + self.len]
    }

    // The whole TLV, out of that row.
    pub fn bytes<'a>(&self, row: &'a [u8]) -> &'a [u8]
        requires { (self.now.at ≤ self.now.next) × (self.now.next ≤ length row.now) }
        ensures { result.now ≡ tlv_of row.now self.now.at self.now }
    {
        &row[self.at..self.next]
    }
}

// The TLV at `at`, where a row goes on.
pub fn tlv_at(s: &[u8], at: usize) -> Header
    requires { (at < length s.now) × (is_row (drop at s.now) ≡ true) }
    ensures { Tells s.now at result }
{
    let kind = read_u16(s, at);
    let len = usize::from(read_u16(s, at + 2));
    let start = at + 4;
    let next = start + len + pad(len);
    Header {
        at,
        kind,
        len,
        start,
        next,
    }
}

// Makes a TLV at `at` of the n bytes that stand at `at` + 4: header before them, padding after them; the place after it.
pub fn close_tlv(d: &mut [u8], at: usize, kind: u16, n: usize) -> usize
    requires { (n < 65536) × (at + (4 + (n + padding n)) ≤ length d.old) }
    ensures { (d.new ≡ written d.old at (encode kind (take n (drop (at + 4) d.old)))) × (result ≡ at + (4 + (n + padding n))) }
{
    let k = pad(n);
    let a = at + 4 + n;
    let e = a + k;
    d[a..e].fill(0);
    put_u16(d, at, kind);
    put_u16(d, at + 2, n as u16);
    e
}
