// Reads a saved snapshot on standard input and prints its totals.
#![tactic(auto)]

use console::input::{StandardInput, filled};
use console::output::StandardOutput;
use model::figures::TABLE_BYTES;
use report::sums::HOUSEHOLDS;
use std::io;

// No snapshot has more than 33,319 bytes: what does not fit the buffer is refused for its length alone.
fn main(rt: HostRuntime) -> io::Result<()> {
    let mut input = StandardInput::new(rt.stdin());
    let mut bytes: [u8; 65536] = filled(0);
    let n = input.read_full(&mut bytes);
    input.all_read()?;
    let mut mem = [0u8; TABLE_BYTES];
    let mut sums = [None; HOUSEHOLDS];
    let mut room = [0u8; 131072];
    let k = report::report(&bytes[..n], &mut mem, &mut sums, &mut room);
    let mut out = StandardOutput::new(rt.stdout());
    out.write(&room[..k]);
    out.all_written()
}
