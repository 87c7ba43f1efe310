// Two nodes joined by mutual Peer TLVs, endpoint to endpoint.
ghost use Rattle.std.specs.Prelude.{◌≡◌, true};
ghost use Rattle.wire.specs.Row.{is_row};
ghost use Rattle.wire.specs.Answers.{tlv_of, Tells};
ghost use Rattle.model.specs.Reach.{matches};
ghost use Rattle.reach.specs.Marks.{link_in, joins, Holds};

use base::big_endian::read_u32;
use wire::kind::Kind;
use wire::row::Header;
use wire::tlvs::tlvs;

// A Peer TLV's peer, the peer's endpoint and the publisher's own.
#[derive(Clone, Copy, PartialEq, Eq, Debug)]
pub struct Link {
    pub peer: u32,
    pub peerend: u32,
    pub ownend: u32,
}

// The link in a TLV, if it is a Peer TLV that is long enough.
fn link_at(row: &[u8], h: Header) -> Option<Link>
    requires { Tells row.now h.at h }
    ensures { Holds (tlv_of row.now h.at h) result }
{
    if h.kind != u16::from(Kind::Peer) || h.len < 12 {
        return None;
    }
    Some(Link {
        peer: read_u32(row, h.start),
        peerend: read_u32(row, h.start + 4),
        ownend: read_u32(row, h.start + 8),
    })
}

// l, published by node r, and m, published by node n, name each other, endpoint to endpoint.
fn is_match(r: u32, n: u32, l: Link, m: Link) -> bool
    ensures { result ≡ matches r n (link_in l) (link_in m) }
{
    l.peer == n && m.peer == r && l.peerend == m.ownend && l.ownend == m.peerend
}

// Nodes r and n, which publish x and y, are joined: the search is left at the first pair that matches.
pub fn is_joined(x: &[u8], r: u32, y: &[u8], n: u32) -> bool
    requires { (is_row x.now ≡ true) × (is_row y.now ≡ true) }
    ensures { result ≡ joins r x.now n y.now }
{
    let mut found = false;
    'search: for h in tlvs(x) {
        if let Some(l) = link_at(x, h)
            && l.peer == n
        {
            for k in tlvs(y) {
                if link_at(y, k).is_some_and(|m| is_match(r, n, l, m)) {
                    found = true;
                    break 'search;
                }
            }
        }
    }
    found
}
