// Sums over the payments that nodes publish.
ghost use Rattle.std.specs.Prelude.{◌≡◌, true, [], ◌∷◌, ◌*◌};
ghost use Rattle.base.specs.Lists.{keep_by};
ghost use Rattle.wire.specs.Order.{good};
ghost use Rattle.model.specs.Figures.{data_limit};
ghost use Rattle.model.specs.Table.{statements};
ghost use Rattle.table.specs.View.{view, Kept, AllGood};
ghost use Rattle.accounts.specs.Tallied.{counted, most_payments, Room, add_tlv, Added, Tallied, publishing};

use model::figures::MOST_NODES;
use table::{Table, data_of};
use wire::kind::Kind;
use wire::payment::read_payment;
use wire::tlvs::tlvs;

// Whose payments are summed: every household's, or one's. No Option, whose None would read as nobody's.
#[derive(Clone, Copy, Debug, PartialEq, Eq)]
pub enum Whose {
    All,
    Of(u32),
}

impl Whose {
    // The household's payments are summed.
    fn counts(self, household: u32) -> bool
        ensures { result ≡ counted self household }
    {
        match self {
            Whose::All => true,
            Whose::Of(one) => household == one,
        }
    }
}

// A sum in cents, and how many payments were unreadable.
#[derive(Clone, Copy, Debug, Default, PartialEq, Eq)]
pub struct Total {
    pub value: i64,
    pub unread: u32,
}

// One TLV more: only payments count.
fn add_tlv(t: Total, w: Whose, kind: u16, value: &[u8]) -> Total
    requires { Room (most_payments * 2) t }
    ensures { result ≡ add_tlv w kind value.now t }
{
    if kind != Kind::Payment as u16 {
        return t;
    }
    match read_payment(value) {
        None => Total {
            unread: t.unread + 1,
            ..t
        },
        Some(payment) if w.counts(payment.household) => Total {
            value: t.value + i64::from(payment.amount),
            ..t
        },
        Some(_) => t,
    }
}

// One node's data more.
fn add_data(t: Total, w: Whose, nd: &[u8]) -> Total
    requires { Room most_payments t × (good data_limit nd.now ≡ true) }
    ensures { Added w (publishing nd.now ∷ []) t result }
{
    let mut r = t;
    for h in tlvs(nd) {
        r = add_tlv(r, w, h.kind, h.value(nd));
    }
    r
}

// The sum over the marked nodes.
pub fn tally(t: Table, mem: &[u8], marks: [bool; MOST_NODES], w: Whose) -> Total
    requires { Kept t mem.now × AllGood (view t mem.now) }
    ensures { Tallied w (statements (keep_by marks (view t mem.now))) result }
{
    let mut r = Total::default();
    for i in 0..t.count {
        if marks[i] {
            r = add_data(r, w, data_of(t, mem, i));
        }
    }
    r
}
