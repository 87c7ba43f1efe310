// TLVs compared byte by byte, good node data, and where a TLV stands in it.
ghost use Rattle.std.specs.Prelude.{◌≡◌, true, ◌≤◌, length};
ghost use Rattle.base.specs.Lists.{join_all};
ghost use Rattle.base.specs.Memory.{spliced};
ghost use Rattle.wire.specs.Row.{is_row, tlvs};
ghost use Rattle.wire.specs.Order.{ascending, good, place};
ghost use Rattle.wire.specs.Answers.{Found};

use crate::row::size_at;
use crate::tlvs::tlvs;

// Good node data for a limit.
pub fn is_good(s: &[u8], limit: usize) -> bool
    ensures { result ≡ good limit s.now }
{
    if limit < s.len() {
        return false;
    }
    // Whether it is a row is found out on the way, so nothing that asks for one goes over it. `<` takes twice as long as `cmp` where a snapshot is judged.
    let mut last = &s[..0];
    let mut at = 0;
    while at < s.len() {
        let Some(n) = size_at(s, at) else {
            return false;
        };
        let tlv = &s[at..at + n];
        let rises = last.cmp(tlv).is_lt();
        if !rises {
            return false;
        }
        last = tlv;
        at += n;
    }
    true
}

// Where in node data a TLV is put in.
pub fn place_of(nd: &[u8], tlv: &[u8]) -> usize
    requires { is_row nd.now ≡ true }
    ensures { (result ≤ length nd.now) × (spliced nd.now result tlv.now ≡ join_all (place tlv.now (tlvs nd.now))) }
{
    for h in tlvs(nd) {
        if tlv < h.bytes(nd) {
            return h.at;
        }
    }
    nd.len()
}

// Where this very TLV stands in node data.
pub fn find_tlv(nd: &[u8], tlv: &[u8]) -> Option<usize>
    requires { (is_row nd.now ≡ true) × (ascending (tlvs nd.now) ≡ true) }
    ensures { Found nd.now tlv.now result }
{
    for h in tlvs(nd) {
        if tlv == h.bytes(nd) {
            return Some(h.at);
        }
    }
    None
}
