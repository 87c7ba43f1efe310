// SHA-256 (FIPS 180-4).
#![tactic(auto)]

pub mod compress;
pub mod constants;
pub mod functions;
pub mod output;
pub mod parse;
pub mod schedule;

ghost use Rattle.std.specs.Prelude.{◌≡◌};
ghost use Rattle.sha256.specs.Sha256.{hash_value, sha256, hash16};

use crate::compress::absorb;
use crate::constants::H;
use crate::output::output;
use crate::parse::load;

// The eight working variables, or the eight words of the hash value.
#[derive(Clone, Copy)]
pub struct State {
    pub a: u32,
    pub b: u32,
    pub c: u32,
    pub d: u32,
    pub e: u32,
    pub f: u32,
    pub g: u32,
    pub h: u32,
}

// The eight words of the hash value of m, block by block.
fn hash_value(m: &[u8]) -> State
    ensures { result ≡ hash_value m.now }
{
    let end = m.len() + 1 + (119 - m.len() % 64) % 64;
    let mut s = H;
    for block in 0..(end + 8) / 64 {
        s = absorb(s, load(m, 64 * block, end));
    }
    s
}

// The SHA-256 of m.
pub fn digest(m: &[u8]) -> [u8; 32]
    ensures { result ≡ sha256 m.now }
{
    output(hash_value(m))
}

// The first 16 bytes of the SHA-256 of m: the ledger's H.
pub fn hash16(m: &[u8]) -> [u8; 16]
    ensures { result ≡ hash16 m.now }
{
    *digest(m).first_chunk().unwrap()
}

// The SHA-256 of m for programs in other languages.
pub fn pingvratha_sha256(m: &[u8], out: &mut [u8; 32])
    ensures { out.new ≡ sha256 m.now }
{
    *out = digest(m);
}

// The ledger's H of m for programs in other languages.
pub fn pingvratha_hash16(m: &[u8], out: &mut [u8; 16])
    ensures { out.new ≡ hash16 m.now }
{
    *out = hash16(m);
}
