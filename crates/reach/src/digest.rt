// The network digest: over number and digest of each marked node, ascending.
ghost use Rattle.std.specs.Prelude.{◌≡◌, List, ◌++◌, ℕ, ◌+◌, ◌≤◌, length};
ghost use Rattle.base.specs.Bytes.{big32};
ghost use Rattle.base.specs.Lists.{keep_by};
ghost use Rattle.base.specs.Memory.{written};
ghost use Rattle.model.specs.Table.{statements};
ghost use Rattle.model.specs.Digest.{digest_of};
ghost use Rattle.table.specs.View.{view, Arranged, Kept};

use base::big_endian::put_u32;
use base::memory::store;
use model::figures::MOST_NODES;
use sha256::hash16;
use table::{Entry, Table};

// Bytes of one node's part, and of all parts.
const PART: usize = 20;

const PARTS: usize = MOST_NODES * PART;

// Number and digest of one node to place `at`.
fn put_part(d: &mut [u8], at: usize, e: Entry)
    requires { at + 20 ≤ length d.old }
    ensures { (length e.hash ≡ 16) × (d.new ≡ written d.old at (big32 e.seq ++ e.hash)) }
{
    put_u32(d, at, e.seq);
    store(d, at + 4, &e.hash);
}

// The digest over the marked nodes; the digest of each data is kept with the table.
pub fn network_digest(t: Table, marks: [bool; MOST_NODES]) -> [u8; 16]
    requires { Arranged t }
    ensures { (m : List ℕ) → Kept t m → result ≡ digest_of (statements (keep_by marks (view t m))) }
{
    let mut d = [0u8; PARTS];
    let mut n = 0;
    for (e, marked) in t.entries[..t.count].iter().zip(&marks) {
        if *marked {
            put_part(&mut d, n, *e);
            n += PART;
        }
    }
    hash16(&d[..n])
}
