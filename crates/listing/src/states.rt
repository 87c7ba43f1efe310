// The line `state`: the whole state.
ghost use Rattle.std.specs.Prelude.{◌≤◌, length};
ghost use Rattle.model.specs.Figures.{table_bytes};
ghost use Rattle.table.specs.View.{FitMeta, Arranged};
ghost use Rattle.node.specs.View.{PeersRep};

use console::output::{Hexadecimal, StandardOutput};
use node::peers::Peers;
use node::{Endpoint, State};
use table::{Entry, Table, bytes_of};

// A node with its data.
fn node(out: &mut StandardOutput, e: &Entry, mem: &[u8])
    requires { FitMeta e.now × (table_bytes ≤ length mem.now) }
{
    let data = Hexadecimal(bytes_of(*e, mem));
    writeln!(
        out,
        "node id={} seq={} age={} since={} data={data}",
        e.id, e.seq, e.age, e.since
    );
}

// All nodes, ascending.
fn nodes(out: &mut StandardOutput, t: &Table, mem: &[u8])
    requires { Arranged t.now × (table_bytes ≤ length mem.now) }
{
    for e in &t.entries[..t.count] {
        node(out, e, mem);
    }
}

// All peers, in the order in which they came.
fn peers(out: &mut StandardOutput, p: &Peers)
    requires { PeersRep p.now }
{
    for p in &p.list[..p.count] {
        writeln!(
            out,
            "peer node={} theirs={} ours={} contact={}",
            p.node, p.theirs, p.ours, p.contact
        );
    }
}

// An endpoint.
fn endpoint(out: &mut StandardOutput, number: usize, e: &Endpoint) {
    let t = e.trickle;
    let spent = u8::from(t.spent);
    writeln!(
        out,
        "endpoint {number} start={} point={} interval={} count={} spent={spent} next={} keep={} quiet={}",
        t.start, t.point, t.interval, t.count, e.next, e.keep, e.quiet,
    );
}

// The whole state.
pub fn state(out: &mut StandardOutput, s: &State, mem: &[u8])
    requires { Arranged s.now.table × (PeersRep s.now.peers × (table_bytes ≤ length mem.now)) }
{
    let digest = Hexadecimal(&s.digest);
    writeln!(out, "state own={} last={} digest={digest}", s.own, s.last);
    nodes(out, &s.table, mem);
    peers(out, &s.peers);
    for (i, e) in s.endpoints.iter().enumerate() {
        endpoint(out, i + 1, e);
    }
}
