// Bytes in lower-case hexadecimal, `-` for none.
ghost use Rattle.std.specs.Prelude.{◌≡◌, ◌+◌, ◌≤◌, ◌<◌, length, take, IfSome, is_some};
ghost use Rattle.std.specs.List.{list_all};
ghost use Rattle.text.specs.Hexadecimal.{pairs, hexadecimal};
ghost use Rattle.text.specs.Hexadecimal.{glyph as Hexadecimal·glyph, digit as Hexadecimal·digit, is_hex as Hexadecimal·is_hex, bytes};
ghost use Rattle.text.specs.Room.{Put};

// What a digit counts.
#[tactic(auto, unfolding(crate::specs::Hexadecimal::digit))]
fn digit(b: u8) -> Option<u8>
    ensures { (result ≡ Hexadecimal·digit b) × IfSome result (λ d. d < 16) }
{
    match b {
        b'0'..=b'9' => Some(b - b'0'),
        b'a'..=b'f' => Some(b - b'a' + 10),
        _ => None,
    }
}

// Digits alone.
fn are_digits(word: &[u8]) -> bool
    ensures { result ≡ list_all (λ b. is_some (Hexadecimal·digit b)) word.now }
{
    word.iter().all(|b| digit(*b).is_some())
}

// The word stands for bytes.
#[tactic(auto, using(base::proofs::Library::same_equal), unfolding(crate::specs::Hexadecimal::is_hex))]
pub fn is_hex(word: &[u8]) -> bool
    ensures { result ≡ Hexadecimal·is_hex word.now }
{
    word == b"-".as_slice() || !word.is_empty() && word.len() % 2 == 0 && are_digits(word)
}

// The bytes that the word stands for, put over its front; how many they are.
pub fn decode(word: &mut [u8]) -> usize
    ensures { (take result word.new ≡ bytes word.old) × (result ≤ length word.old) × (length word.new ≡ length word.old) }
{
    let n = word.len() / 2;
    for i in 0..n {
        let high = digit(word[2 * i]).unwrap_or(0);
        let low = digit(word[2 * i + 1]).unwrap_or(0);
        word[i] = high * 16 + low;
    }
    n
}

// The digit that counts d.
fn glyph(d: u8) -> u8
    requires { d < 16 }
    ensures { result ≡ Hexadecimal·glyph d }
{
    if d < 10 { b'0' + d } else { b'a' + (d - 10) }
}

// Two digits a byte.
#[tactic(auto, using(crate::proofs::Pairs::pairs_length))]
fn put_pairs(room: &mut [u8], at: usize, d: &[u8]) -> usize
    requires { at + length (pairs d.now) ≤ length room.old }
    ensures { Put (pairs d.now) room.old at room.new result }
{
    for (i, b) in d.iter().enumerate() {
        room[at + 2 * i] = glyph(b / 16);
        room[at + 2 * i + 1] = glyph(b % 16);
    }
    at + 2 * d.len()
}

// The bytes as a word, at a place of the room; the place after it.
pub fn put_hex(room: &mut [u8], at: usize, d: &[u8]) -> usize
    requires { at + length (hexadecimal d.now) ≤ length room.old }
    ensures { Put (hexadecimal d.now) room.old at room.new result }
{
    if d.is_empty() {
        room[at] = b'-';
        return at + 1;
    }
    put_pairs(room, at, d)
}
