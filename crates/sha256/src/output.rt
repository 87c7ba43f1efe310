// The hash value as bytes.
ghost use Rattle.std.specs.Prelude.{◌≡◌};
ghost use Rattle.sha256.specs.Sha256.{bytes_of};

use crate::State;

// The eight words as bytes, each the highest byte first.
pub fn output(s: State) -> [u8; 32]
    ensures { result ≡ bytes_of s }
{
    let mut bytes = [0; 32];
    bytes[..4].copy_from_slice(&s.a.to_be_bytes());
    bytes[4..8].copy_from_slice(&s.b.to_be_bytes());
    bytes[8..12].copy_from_slice(&s.c.to_be_bytes());
    bytes[12..16].copy_from_slice(&s.d.to_be_bytes());
    bytes[16..20].copy_from_slice(&s.e.to_be_bytes());
    bytes[20..24].copy_from_slice(&s.f.to_be_bytes());
    bytes[24..28].copy_from_slice(&s.g.to_be_bytes());
    bytes[28..].copy_from_slice(&s.h.to_be_bytes());
    bytes
}
