// The line `totals`: what the program of that name prints for a snapshot.
use console::input::filled;
use console::output::StandardOutput;
use report::sums::HOUSEHOLDS;

pub fn totals(out: &mut StandardOutput, bytes: &[u8]) {
    let mut mem: [u8; 65536] = filled(0);
    let mut sums: [Option<i64>; HOUSEHOLDS] = filled(None);
    let mut room: [u8; 131072] = filled(0);
    let n = report::report(bytes, &mut mem, &mut sums, &mut room);
    out.write(&room[..n]);
}
