// One block into the hash value (FIPS 180-4, 6.2.2, steps 2 to 4).
ghost use Rattle.std.specs.Prelude.{◌≡◌, ◌+◌, ◌<◌, ◌≤◌, get_or};
ghost use Rattle.sha256.specs.Sha256.{k_table, round_of, plus, compress};
ghost use Rattle.sha256.specs.Rounds.{RoundAt, RoundsFrom};

use crate::State;
use crate::constants::constant;
use crate::functions::{big0, big1, ch, maj};
use crate::schedule::word;

// One round, with the constant k and the word w.
fn round(s: State, k: u32, w: u32) -> State
    ensures { result ≡ round_of s k w }
{
    let t1 = s
        .h
        .wrapping_add(big1(s.e))
        .wrapping_add(ch(s.e, s.f, s.g))
        .wrapping_add(k)
        .wrapping_add(w);
    let t2 = big0(s.a).wrapping_add(maj(s.a, s.b, s.c));
    State {
        a: t1.wrapping_add(t2),
        b: s.a,
        c: s.b,
        d: s.c,
        e: s.d.wrapping_add(t1),
        f: s.e,
        g: s.f,
        h: s.g,
    }
}

// Round t: it is handed the word t.
fn round_at(s: State, w: &mut [u32; 16], t: usize) -> State
    requires { t < 64 }
    ensures { RoundAt t (get_or k_table t 0) s w.old result w.new }
{
    round(s, constant(t), word(w, t))
}

// The rounds t to t + 15. No loop, so that the compiler knows the place of each word: as loops the rounds have 0.87 times the speed.
#[inline(always)]
fn sixteen_rounds(s: State, w: &mut [u32; 16], t: usize) -> State
    requires { t + 16 ≤ 64 }
    ensures { RoundsFrom t 16 s w.old result w.new }
{
    let mut x = round_at(s, w, t);
    x = round_at(x, w, t + 1);
    x = round_at(x, w, t + 2);
    x = round_at(x, w, t + 3);
    x = round_at(x, w, t + 4);
    x = round_at(x, w, t + 5);
    x = round_at(x, w, t + 6);
    x = round_at(x, w, t + 7);
    x = round_at(x, w, t + 8);
    x = round_at(x, w, t + 9);
    x = round_at(x, w, t + 10);
    x = round_at(x, w, t + 11);
    x = round_at(x, w, t + 12);
    x = round_at(x, w, t + 13);
    x = round_at(x, w, t + 14);
    round_at(x, w, t + 15)
}

// The 64 rounds of the block in w.
fn all_rounds(s: State, w: &mut [u32; 16]) -> State
    ensures { RoundsFrom 0 64 s w.old result w.new }
{
    let mut x = sixteen_rounds(s, w, 0);
    x = sixteen_rounds(x, w, 16);
    x = sixteen_rounds(x, w, 32);
    sixteen_rounds(x, w, 48)
}

fn add(s: State, t: State) -> State
    ensures { result ≡ plus s t }
{
    State {
        a: s.a.wrapping_add(t.a),
        b: s.b.wrapping_add(t.b),
        c: s.c.wrapping_add(t.c),
        d: s.d.wrapping_add(t.d),
        e: s.e.wrapping_add(t.e),
        f: s.f.wrapping_add(t.f),
        g: s.g.wrapping_add(t.g),
        h: s.h.wrapping_add(t.h),
    }
}

// One block. The later words take the place of its own.
pub fn absorb(s: State, mut w: [u32; 16]) -> State
    ensures { result ≡ compress w s }
{
    add(all_rounds(s, &mut w), s)
}
