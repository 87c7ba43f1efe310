// Datagrams: TLV by TLV, with replies (RFC 7787, 4.4 and 4.5).
#![tactic(auto)]

pub mod carry;
pub mod datagram;
pub mod marks;
pub mod network;
pub mod peer;
pub mod request;
pub mod statement;
pub mod tlv;

ghost use Rattle.std.specs.Prelude.{◌≡◌};
ghost use Rattle.exchange.specs.Told.{still_at};

use decide::Decision;
use reply::{Progress, Sender};

// What a TLV asks for, decided and not carried out yet: our network's state, the state of the node at a place, a request for the sender's network state,
// the sender as a new peer, its equal digest counted, or what is decided on a Node State.
#[derive(Clone, Copy)]
pub enum Act {
    TellNetwork,
    TellNode { place: usize },
    AskNetwork,
    Greet(Sender),
    Equal,
    Decided(Decision),
}

// A TLV's step: the progress with its sender noted and marks worked out where the type asks for it, and what is to be carried out.
#[derive(Clone, Copy)]
pub struct Step {
    pub progress: Progress,
    pub act: Act,
}

// Nothing is to be carried out.
pub fn still(progress: Progress) -> Step
    ensures { result ≡ still_at progress }
{
    Step {
        progress,
        act: Act::Decided(Decision::Ignored),
    }
}
