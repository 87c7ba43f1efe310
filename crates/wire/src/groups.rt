// Numbers in groups of seven bits.
ghost use Rattle.std.specs.Prelude.{◌≡◌, ◌+◌, ◌≤◌, ◌<◌, length, drop};
ghost use Rattle.base.specs.Memory.{written};
ghost use Rattle.wire.specs.Groups.{groups, read_groups};
ghost use Rattle.wire.specs.Answers.{as_read, Inside};

// A number that was read, and the place after it.
#[derive(Clone, Copy, Debug, PartialEq, Eq)]
pub struct Groups {
    pub number: u64,
    pub next: usize,
}

// The number in groups of seven bits at `at`, in the shortest form and at most `most`.
pub fn read_groups(s: &[u8], at: usize, most: u64) -> Option<Groups>
    requires { (at ≤ length s.now) × (most < 72057594037927936) }
    ensures { (as_read s.now result ≡ read_groups most (drop at s.now)) × Inside s.now at most result }
{
    let mut sum: u64 = 0;
    let mut scale: u64 = 1;
    let mut least: u64 = 0;
    for i in at..s.len() {
        let b = u64::from(s[i]);
        if b < 128 {
            let number = sum + b * scale;
            if b < least || most < number {
                return None;
            }
            return Some(Groups {
                number,
                next: i + 1,
            });
        }
        sum += (b - 128) * scale;
        scale *= 128;
        if most < sum || most < scale {
            return None;
        }
        least = 1;
    }
    None
}

// Writes the groups of n from `at` on; the place after them.
pub fn put_groups(d: &mut [u8], at: usize, n: u64) -> usize
    requires { at + length (groups n) ≤ length d.old }
    ensures { (d.new ≡ written d.old at (groups n)) × (result ≡ at + length (groups n)) }
{
    // It ends by the number and not by the room, so there is no range of places to go over.
    let mut i = at;
    let mut v = n;
    while 127 < v {
        d[i] = (v % 128 + 128) as u8;
        v /= 128;
        i += 1;
    }
    d[i] = v as u8;
    i + 1
}
