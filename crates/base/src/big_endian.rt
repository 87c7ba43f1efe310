// Big-endian numbers in byte slices. Each width has a function of its own, one line: a trait for two widths would be longer than both.
ghost use Rattle.std.specs.Prelude.{◌≡◌, ◌+◌, ◌≤◌, length};
ghost use Rattle.base.specs.Bytes.{u16_at, u32_at, big16, big32};
ghost use Rattle.base.specs.Memory.{written};

// The number in the two bytes at `at`.
pub fn read_u16(s: &[u8], at: usize) -> u16
    requires { at + 2 ≤ length s.now }
    ensures { result ≡ u16_at s.now at }
{
    u16::from_be_bytes([s[at], s[at + 1]])
}

// The number in the four bytes at `at`.
pub fn read_u32(s: &[u8], at: usize) -> u32
    requires { at + 4 ≤ length s.now }
    ensures { result ≡ u32_at s.now at }
{
    u32::from_be_bytes([s[at], s[at + 1], s[at + 2], s[at + 3]])
}

// v in the two bytes from `at`.
pub fn put_u16(d: &mut [u8], at: usize, v: u16)
    requires { at + 2 ≤ length d.old }
    ensures { d.new ≡ written d.old at (big16 v) }
{
    d[at..at + 2].copy_from_slice(&v.to_be_bytes());
}

// v in the four bytes from `at`.
pub fn put_u32(d: &mut [u8], at: usize, v: u32)
    requires { at + 4 ≤ length d.old }
    ensures { d.new ≡ written d.old at (big32 v) }
{
    d[at..at + 4].copy_from_slice(&v.to_be_bytes());
}
