// Writes SHA-256 digests in hexadecimal, a line each: of the example messages of FIPS 180-4, then of messages of many lengths.
#![tactic(auto)]

ghost use Rattle.std.specs.Prelude.{◌≡◌, ◌≤◌, length};

use std::io::{Result, Stdout};

// A digest as a line of hexadecimal digits.
fn print(out: Stdout, d: &[u8]) -> Result<()> {
    for byte in d {
        print!(out; "{byte:02x}")?;
    }
    println!(out)
}

fn show(out: Stdout, m: &[u8]) -> Result<()> {
    print(out, &sha256::digest(m))
}

// The example messages, of 3, 56, 112 and 0 bytes.
fn show_examples(out: Stdout) -> Result<()> {
    show(out, b"abc")?;
    show(
        out,
        b"abcdbcdecdefdefgefghfghighijhijkijkljklmklmnlmnomnopnopq",
    )?;
    show(
        out,
        b"abcdefghbcdefghicdefghijdefghijkefghijklfghijklmghijklmnhijklmnoijklmnopjklmnopqklmnopqrlmnopqrsmnopqrstnopqrstu",
    )?;
    show(out, b"")
}

// Byte i becomes i mod 251.
fn fill(d: &mut [u8]) {
    for (i, byte) in d.iter_mut().enumerate() {
        *byte = (i % 251) as u8;
    }
}

// The first n bytes of m, for each n from `first` to `last`.
fn show_lengths(out: Stdout, m: &[u8], first: usize, last: usize) -> Result<()>
    requires { last ≤ length m.now }
{
    for n in first..=last {
        show(out, &m[..n])?;
    }
    Ok(())
}

// 65,536 zeros.
fn buffer() -> [u8; 65536]
    ensures { 65536 ≡ length result }
{
    [0; 65536]
}

fn main(rt: HostRuntime) -> Result<()> {
    let out = rt.stdout();
    show_examples(out)?;
    let mut bytes = buffer();
    fill(&mut bytes);
    show_lengths(out, &bytes, 0, 130)?;
    show_lengths(out, &bytes, 1023, 1025)?;
    show_lengths(out, &bytes, 4095, 4096)?;
    show(out, &bytes)
}
