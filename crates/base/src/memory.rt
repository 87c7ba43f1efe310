// Bytes stored in a part of lent memory, and put in or taken out in place.
ghost use Rattle.std.specs.Prelude.{◌≡◌, ◌+◌, ◌≤◌, length};
ghost use Rattle.base.specs.Memory.{part, written, spliced, cut};

// The bytes to place `at` of the memory; every other byte stays.
pub fn store(mem: &mut [u8], at: usize, bytes: &[u8])
    requires { at + length bytes.now ≤ length mem.old }
    ensures { mem.new ≡ written mem.old at bytes.now }
{
    let end = at + bytes.len();
    mem[at..end].copy_from_slice(bytes);
}

// The n bytes from `at + by` move down to `at`.
pub fn move_down(mem: &mut [u8], at: usize, n: usize, by: usize)
    requires { at + by + n ≤ length mem.old }
    ensures { mem.new ≡ written mem.old at (part mem.old (at + by) n) }
{
    let from = at + by;
    mem.copy_within(from..from + n, at);
}

// Puts the bytes in at place p of the `len` bytes that stand at `at`.
pub fn insert_bytes(mem: &mut [u8], at: usize, len: usize, p: usize, bytes: &[u8])
    requires { (p ≤ len) × (at + len + length bytes.now ≤ length mem.old) }
    ensures { mem.new ≡ written mem.old at (spliced (part mem.old at len) p bytes.now) }
{
    let from = at + p;
    mem.copy_within(from..at + len, from + bytes.len());
    store(mem, from, bytes);
}

// Takes the n bytes from place p out of the `len` bytes that stand at `at`.
pub fn remove_bytes(mem: &mut [u8], at: usize, len: usize, p: usize, n: usize)
    requires { (p + n ≤ len) × (at + len ≤ length mem.old) }
    ensures { mem.new ≡ written mem.old at (cut (part mem.old at len) p n) }
{
    let to = at + p;
    mem.copy_within(to + n..at + len, to);
}
