// One TLV's handling, with no knowledge of the datagram around it.
ghost use Rattle.std.specs.Prelude.{◌≡◌};
ghost use Rattle.model.specs.Handle.{on_tlv};
ghost use Rattle.node.specs.View.{PeersRep};
ghost use Rattle.reply.specs.View.{context_of, Markable};
ghost use Rattle.exchange.specs.Passed.{handles, idle};
ghost use Rattle.exchange.specs.Told.{Told};

use crate::network::on_network;
use crate::peer::on_endpoint;
use crate::request::{on_request_network, on_request_node};
use crate::statement::on_state;
use crate::{Step, still};
use base::big_endian::read_u32;
use node::peers::Peers;
use reply::{Context, Progress};
use table::Table;
use wire::kind::Kind;

// The types of on_tlv's match, as the numbers that stand in a TLV.
const REQUEST_NETWORK: u16 = Kind::RequestNetwork as u16;

const REQUEST_NODE: u16 = Kind::RequestNode as u16;

const NODE_ENDPOINT: u16 = Kind::NodeEndpoint as u16;

const NETWORK_STATE: u16 = Kind::NetworkState as u16;

const NODE_STATE: u16 = Kind::NodeState as u16;

// The types that are handled, from Request Network State to Node State; a TLV of another is passed over.
fn is_handled(kind: u16) -> bool
    ensures { result ≡ handles kind }
{
    matches!(kind, 1..=5)
}

// A TLV of this type changes nothing: no rule handles it, and there is no last contact to set.
pub fn is_idle(unicast: bool, known: bool, kind: u16) -> bool
    ensures { result ≡ idle unicast known kind }
{
    !is_handled(kind) && !(unicast && known)
}

// The type decides; what is too short is passed over. So are the types of this profile, 32 to 511: they have their meaning in node data alone.
pub fn on_tlv(
    d: Progress,
    t: Table,
    p: Peers,
    mem: &[u8],
    c: Context,
    kind: u16,
    value: &[u8],
) -> Step
    requires { Markable c t d mem.now × PeersRep p }
    ensures { Told c 33 (on_tlv (context_of c) kind value.now) value.now t p d mem.now result }
{
    match kind {
        REQUEST_NETWORK => on_request_network(d, t, mem, c),
        REQUEST_NODE if value.len() >= 4 => on_request_node(d, t, mem, c, read_u32(value, 0)),
        NODE_ENDPOINT if value.len() >= 8 => {
            on_endpoint(d, t, p, mem, c, read_u32(value, 0), read_u32(value, 4))
        }
        NETWORK_STATE if value.len() >= 16 => on_network(d, t, mem, c, &value[..16]),
        NODE_STATE if value.len() >= 28 => on_state(d, t, mem, c, value),
        32..=511 => still(d),
        _ => still(d),
    }
}
