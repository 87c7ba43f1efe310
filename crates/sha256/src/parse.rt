// The message, padded and parsed into blocks (FIPS 180-4, 5.1.1 and 5.2.1).
ghost use Rattle.std.specs.Prelude.{◌≡◌, [], ◌∷◌, ◌++◌, ◌+◌, ◌%◌, ◌^◌, ◌≤◌, ◌<◌, length, get_or};
ghost use Rattle.sha256.specs.Sha256.{end_of, word_at, block_at, pad};

// The byte at i of m and 0x80 after it, and 0 after that.
fn byte_at(m: &[u8], i: usize) -> u8
    ensures { result ≡ get_or (m.now ++ 0x80 ∷ []) i 0 }
{
    if i < m.len() {
        m[i]
    } else if i == m.len() {
        0x80
    } else {
        0
    }
}

// The word at i of m as it is padded, where end is the place of the length.
fn word_at(m: &[u8], i: usize, end: usize) -> u32
    requires { (end ≡ end_of (length m.now)) × (end + 64 < 2 ^ 64) × (i % 4 ≡ 0) × (i < end + 8) }
    ensures { result ≡ word_at (pad m.now) i }
{
    if i + 4 <= m.len() {
        u32::from_be_bytes([m[i], m[i + 1], m[i + 2], m[i + 3]])
    } else if i < end {
        u32::from_be_bytes([
            byte_at(m, i),
            byte_at(m, i + 1),
            byte_at(m, i + 2),
            byte_at(m, i + 3),
        ])
    } else if i == end {
        (m.len() / 536870912 % 4294967296) as u32
    } else {
        (m.len() % 536870912 * 8) as u32
    }
}

// The block at byte `at` of m as it is padded. No loop: the array that it filled would be copied, with 76 bytes of stack more.
pub fn load(m: &[u8], at: usize, end: usize) -> [u32; 16]
    requires { (end ≡ end_of (length m.now)) × (end + 64 < 2 ^ 64) × (at % 64 ≡ 0) × (at + 64 ≤ end + 8) }
    ensures { result ≡ block_at (pad m.now) at }
{
    [
        word_at(m, at, end),
        word_at(m, at + 4, end),
        word_at(m, at + 8, end),
        word_at(m, at + 12, end),
        word_at(m, at + 16, end),
        word_at(m, at + 20, end),
        word_at(m, at + 24, end),
        word_at(m, at + 28, end),
        word_at(m, at + 32, end),
        word_at(m, at + 36, end),
        word_at(m, at + 40, end),
        word_at(m, at + 44, end),
        word_at(m, at + 48, end),
        word_at(m, at + 52, end),
        word_at(m, at + 56, end),
        word_at(m, at + 60, end),
    ]
}
