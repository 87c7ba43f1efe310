// Decimal numbers: written, each put at a place of the room with the place after it as the answer, and read.
ghost use Rattle.std.specs.Prelude.{◌≡◌, [], ◌∷◌, ◌++◌, ◌+◌, ◌≤◌, length, IfSome};
ghost use Rattle.text.specs.Decimal.{decimal, signed, line};
ghost use Rattle.text.specs.Reading.{with_digit, read_decimal, read_amount};
ghost use Rattle.text.specs.Room.{Put};

use base::memory::store;

// How many digits n has.
fn places(n: u64) -> usize
    ensures { result ≡ length (decimal n) }
{
    n.max(1).ilog10() as usize + 1
}

// The digits of n, the last first. Those that `write!` writes are known to stand there only where it answers Ok, and here they always do.
pub fn put_decimal(room: &mut [u8], at: usize, n: u64) -> usize
    requires { at + length (decimal n) ≤ length room.old }
    ensures { Put (decimal n) room.old at room.new result }
{
    let end = at + places(n);
    let mut rest = n;
    for i in (at..end).rev() {
        room[i] = b'0' + (rest % 10) as u8;
        rest /= 10;
    }
    end
}

// A minus sign before the digits of a number below zero.
pub fn put_signed(room: &mut [u8], at: usize, v: i64) -> usize
    requires { at + length (signed v) ≤ length room.old }
    ensures { Put (signed v) room.old at room.new result }
{
    if v < 0 {
        room[at] = b'-';
        return put_decimal(room, at + 1, v.unsigned_abs());
    }
    put_decimal(room, at, v.unsigned_abs())
}

// A space, the cents, and the line's end.
pub fn put_cents(room: &mut [u8], at: usize, v: i64) -> usize
    requires { at + length (32 ∷ (signed v ++ (10 ∷ []))) ≤ length room.old }
    ensures { Put (32 ∷ (signed v ++ (10 ∷ []))) room.old at room.new result }
{
    room[at] = b' ';
    let e = put_signed(room, at + 1, v);
    room[e] = b'\n';
    e + 1
}

// The line of a name.
pub fn put_line(room: &mut [u8], at: usize, name: &[u8], v: i64) -> usize
    requires { at + length (line name.now v) ≤ length room.old }
    ensures { Put (line name.now v) room.old at room.new result }
{
    store(room, at, name);
    put_cents(room, at + name.len(), v)
}

// The number n with the digit b behind it.
#[tactic(auto, unfolding(crate::specs::Reading::with_digit))]
fn with_digit(n: u64, b: u8, most: u64) -> Option<u64>
    ensures { (result ≡ with_digit most n b) × IfSome result (λ m. m ≤ most) }
{
    if !b.is_ascii_digit() {
        return None;
    }
    let longer = n.checked_mul(10)?.checked_add(u64::from(b - b'0'))?;
    if longer <= most { Some(longer) } else { None }
}

// Decimal digits, at least one, of a number that is at most `most`. `parse` takes a plus sign too, and has no bound.
pub fn number(word: &[u8], most: u64) -> Option<u64>
    ensures { (result ≡ read_decimal most word.now) × IfSome result (λ n. n ≤ most) }
{
    if word.is_empty() {
        return None;
    }
    let mut n = 0;
    for b in word {
        n = with_digit(n, *b, most)?;
    }
    Some(n)
}

// A number, with a minus sign before it if it is negative, folded: 0, -1, 1, -2 become 0, 1, 2, 3.
pub fn amount(word: &[u8]) -> Option<u32>
    ensures { result ≡ read_amount word.now }
{
    let (first, digits) = word.split_first()?;
    if *first == b'-' {
        let n = number(digits, 2147483648)?;
        Some((n * 2).saturating_sub(1) as u32)
    } else {
        let n = number(word, 2147483647)?;
        Some((n * 2) as u32)
    }
}
