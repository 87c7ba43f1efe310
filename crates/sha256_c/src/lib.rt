// The two functions of the library `sha256` for programs in other languages: the promises stand there too. A slice is a pointer, which is not null, and a
// length.
#![tactic(auto)]

ghost use Rattle.std.specs.Prelude.{◌≡◌};
ghost use Rattle.sha256.specs.Sha256.{sha256, hash16};

#[unsafe(no_mangle)]
pub extern "C" fn pingvratha_sha256(m: &[u8], out: &mut [u8; 32])
    ensures { out.new ≡ sha256 m.now }
{
    sha256::pingvratha_sha256(m, out)
}

#[unsafe(no_mangle)]
pub extern "C" fn pingvratha_hash16(m: &[u8], out: &mut [u8; 16])
    ensures { out.new ≡ hash16 m.now }
{
    sha256::pingvratha_hash16(m, out)
}
