// A sum for each household that paid, filled from the payments of the reachable nodes.
ghost use Rattle.std.specs.Prelude.{◌≡◌, true, [], ◌∷◌, ◌*◌};
ghost use Rattle.base.specs.Lists.{keep_by};
ghost use Rattle.wire.specs.Order.{good};
ghost use Rattle.model.specs.Figures.{data_limit};
ghost use Rattle.model.specs.Table.{statements};
ghost use Rattle.table.specs.View.{view, Kept, AllGood};
ghost use Rattle.accounts.specs.Tallied.{most_payments, publishing};
ghost use Rattle.report.specs.Steps.{Wide, Small, Behind, Cleared, pays, add_sum, SumsGrow, SumsAre};

use model::figures::{MOST_HOUSEHOLD, MOST_NODES};
use table::{Table, data_of};
use wire::kind::Kind;
use wire::payment::read_payment;
use wire::tlvs::tlvs;

// Numbers 0 to the highest household: a place for each in the lent sums.
pub const HOUSEHOLDS: usize = MOST_HOUSEHOLD as usize + 1;

// No household has paid.
fn clear(sums: &mut [Option<i64>])
    requires { Wide sums.old }
    ensures { Cleared sums.new × Behind sums.old sums.new }
{
    sums[..HOUSEHOLDS].fill(None);
}

// One TLV more: only readable payments count.
fn add_tlv(sums: &mut [Option<i64>], kind: u16, value: &[u8])
    requires { Wide sums.old × Small (most_payments * 2) sums.old }
    ensures { sums.new ≡ add_sum (pays kind value.now) sums.old }
{
    if kind != Kind::Payment as u16 {
        return;
    }
    let Some(payment) = read_payment(value) else {
        return;
    };
    let h = payment.household as usize;
    let sum = sums[h].unwrap_or(0) + i64::from(payment.amount);
    sums[h] = Some(sum);
}

// One node's data more.
fn add_data(sums: &mut [Option<i64>], nd: &[u8])
    requires { Wide sums.old × (Small most_payments sums.old × (good data_limit nd.now ≡ true)) }
    ensures { SumsGrow (publishing nd.now ∷ []) sums.old sums.new × Behind sums.old sums.new }
{
    for h in tlvs(nd) {
        add_tlv(sums, h.kind, h.value(nd));
    }
}

// The sums over the marked nodes.
pub fn sum_up(t: Table, mem: &[u8], marks: [bool; MOST_NODES], sums: &mut [Option<i64>])
    requires { Kept t mem.now × (AllGood (view t mem.now) × Wide sums.old) }
    ensures { SumsAre (statements (keep_by marks (view t mem.now))) sums.new × Behind sums.old sums.new }
{
    clear(sums);
    for i in 0..t.count {
        if marks[i] {
            add_data(sums, data_of(t, mem, i));
        }
    }
}
