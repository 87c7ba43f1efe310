// Answers as lines.
use console::output::{Hexadecimal, StandardOutput};

// The answer to a datagram.
pub fn received(out: &mut StandardOutput, number: u32, omitted: u32, dropped: u32, reply: &[u8]) {
    let length = reply.len();
    writeln!(
        out,
        "receive {number} {length} {omitted} {dropped} {}",
        Hexadecimal(reply)
    );
}

// A total or a sum.
pub fn summed(out: &mut StandardOutput, label: &[u8], number: u32, value: i64, unread: u32) {
    out.write(label);
    writeln!(out, "{number} {value} {unread}");
}

// How many nodes are reachable, the last level, the network digest, and their identifiers.
pub fn marked(
    out: &mut StandardOutput,
    number: u32,
    count: usize,
    levels: usize,
    digest: &[u8],
    nodes: &[u32],
) {
    write!(out, "marks {number} {count} {levels}");
    if number != 0 {
        writeln!(out, " -");
        return;
    }
    write!(out, " {}", Hexadecimal(digest));
    for node in nodes.iter().take(count) {
        write!(out, " {node}");
    }
    writeln!(out);
}

// A call's number, and bytes with their length before them.
pub fn with_bytes(out: &mut StandardOutput, label: &str, number: u32, bytes: &[u8]) {
    let length = bytes.len();
    writeln!(out, "{label} {number} {length} {}", Hexadecimal(bytes));
}
