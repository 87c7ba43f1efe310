// The message schedule (FIPS 180-4, 6.2.2, step 1). Of its 64 words sixteen are kept, word i at i % 16.
ghost use Rattle.std.specs.Prelude.{◌≡◌, ◌<◌};
ghost use Rattle.sha256.specs.Sha256.{◌⊞◌, σ₀, σ₁};
ghost use Rattle.sha256.specs.Rounds.{Takes};

use crate::functions::{small0, small1};

// One word of the schedule, from the words 2, 7, 15 and 16 places before it.
fn next(w2: u32, w7: u32, w15: u32, w16: u32) -> u32
    ensures { result ≡ σ₁ w2 ⊞ w7 ⊞ σ₀ w15 ⊞ w16 }
{
    small1(w2)
        .wrapping_add(w7)
        .wrapping_add(small0(w15))
        .wrapping_add(w16)
}

// The word t, which round t takes. From round 16 on it is worked out from the sixteen before it, and put in the place of the oldest.
pub fn word(w: &mut [u32; 16], t: usize) -> u32
    requires { t < 64 }
    ensures { Takes t w.old result w.new }
{
    if 16 <= t {
        w[t % 16] = next(
            w[(t - 2) % 16],
            w[(t - 7) % 16],
            w[(t - 15) % 16],
            w[(t - 16) % 16],
        );
    }
    w[t % 16]
}
