// The types of TLVs that the ledger knows (document 01; RFC 7787, 7), by their numbers.
ghost use Rattle.std.specs.Prelude.{◌≡◌, MatchResult};
ghost use Rattle.wire.specs.Kind.{number, Unknown};

#[derive(Clone, Copy, Debug, PartialEq, Eq)]
pub enum Kind {
    RequestNetwork = 1,
    RequestNode = 2,
    NodeEndpoint = 3,
    NetworkState = 4,
    NodeState = 5,
    Peer = 8,
    KeepAlive = 9,
    Payment = 40,
}

// No type that the ledger knows has this number.
#[derive(Clone, Copy, Debug, PartialEq, Eq)]
pub struct UnknownKind;

impl TryFrom<u16> for Kind {
    type Error = UnknownKind;

    ghost try_from_gives = { λ n r. MatchResult r (λ k. n ≡ number k) (λ _. Unknown n) };

    fn try_from(n: u16) -> Result<Kind, UnknownKind> {
        match n {
            1 => Ok(Kind::RequestNetwork),
            2 => Ok(Kind::RequestNode),
            3 => Ok(Kind::NodeEndpoint),
            4 => Ok(Kind::NetworkState),
            5 => Ok(Kind::NodeState),
            8 => Ok(Kind::Peer),
            9 => Ok(Kind::KeepAlive),
            40 => Ok(Kind::Payment),
            _ => Err(UnknownKind),
        }
    }
}

impl From<Kind> for u16 {
    ghost from_gives = { λ k n. n ≡ number k };

    fn from(kind: Kind) -> u16 {
        kind as u16
    }
}
