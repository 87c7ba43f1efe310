// The state to start from.
ghost use Rattle.ledger.specs.Promises.{Blank};

use model::figures::{MOST_ENDPOINTS, MOST_NODES};
use model::reading::Reading;
use node::State;
use start::begin::{fresh_endpoints, no_peers};
use table::{Entry, Table};

// H of no bytes. Worked out once, as the next: a call would ask for memory.
const EMPTY: [u8; 16] = [
    227, 176, 196, 66, 152, 252, 28, 20, 154, 251, 244, 200, 153, 111, 185, 36,
];

// The network digest of a node alone with number 0 and no data.
const ALONE: [u8; 16] = [
    20, 218, 188, 59, 185, 71, 48, 173, 102, 239, 62, 236, 126, 227, 206, 251,
];

// The state to start from, with whatever table memory: node 0, begun at reading 0 with random numbers 0.
pub fn pingvratha_blank() -> State
    ensures { Blank result }
{
    let ours = Entry {
        id: 0,
        seq: 0,
        age: 0,
        len: 0,
        slot: 0,
        since: 0,
        hash: EMPTY,
    };
    State {
        own: 0,
        last: 0,
        table: Table {
            count: 1,
            entries: [ours; MOST_NODES],
        },
        peers: no_peers(),
        endpoints: fresh_endpoints(Reading::zero(), [0; MOST_ENDPOINTS]),
        digest: ALONE,
    }
}
