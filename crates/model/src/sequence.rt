// Sequence numbers, round the circle of 32-bit numbers.
ghost use Rattle.std.specs.Prelude.{◌≡◌};
ghost use Rattle.model.specs.Sequence.{older, advance};

// a is older than b.
pub fn is_older(a: u32, b: u32) -> bool
    ensures { result ≡ older a b }
{
    0x8000_0000 <= a.wrapping_sub(b)
}

// n + k modulo 2^32.
pub fn advanced(n: u32, k: u32) -> u32
    ensures { result ≡ advance n k }
{
    n.wrapping_add(k)
}
