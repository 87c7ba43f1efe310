// The marked nodes, one after the other.
ghost use Rattle.table.specs.View.{Arranged};
ghost use Rattle.reach.specs.Marks.{Listed};

use model::figures::MOST_NODES;
use table::Table;

// Identifiers of nodes: the first `count`. Fixed memory, no heap.
#[derive(Clone, Copy)]
pub struct Nodes {
    pub count: usize,
    pub list: [u32; MOST_NODES],
}

// The identifiers of the marked nodes, ascending.
pub fn marked_nodes(t: Table, marks: [bool; MOST_NODES]) -> Nodes
    requires { Arranged t }
    ensures { Listed marks t result }
{
    let mut list = [0u32; MOST_NODES];
    let mut n = 0;
    for (e, marked) in t.entries[..t.count].iter().zip(&marks) {
        if *marked {
            list[n] = e.id;
            n += 1;
        }
    }
    Nodes { count: n, list }
}
