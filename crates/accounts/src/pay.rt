// A payment into our own data.
ghost use Rattle.std.specs.Prelude.{◌≡◌, false, [], ◌∷◌, ◌+◌, ◌≤◌, length};
ghost use Rattle.wire.specs.Row.{tlvs};
ghost use Rattle.wire.specs.Order.{among};
ghost use Rattle.wire.specs.Payment.{payment_tlv};
ghost use Rattle.wire.specs.Answers.{told};
ghost use Rattle.model.specs.Figures.{publish_limit};
ghost use Rattle.model.specs.Numbers.{number_of};
ghost use Rattle.model.specs.Refusals.{first_of, paid_already, full};
ghost use Rattle.model.specs.State.{own_data};
ghost use Rattle.model.specs.Pay.{paid};
ghost use Rattle.model.specs.Invariant.{Midway};
ghost use Rattle.node.specs.View.{state_of, Rep, Published};

use model::figures::{MOST_ENDPOINTS, PUBLISH_LIMIT};
use model::numbers::Refusal;
use model::reading::Reading;
use model::sequence::advanced;
use node::State;
use node::publish::{own_data, own_seq, publish_with};
use node::settle::settle;
use reach::reach;
use wire::order::find_tlv;
use wire::payment::{Payment, put_payment};

// Refused if this very payment stands in our data, or if it does not fit there.
pub fn refusal(s: State, mem: &[u8], clock: u64, payment: Payment) -> Result<(), Refusal>
    requires { Rep s mem.now × Midway clock (state_of s mem.now) }
    ensures { number_of result ≡ first_of (paid_already (told payment) (state_of s mem.now) ∷ full (told payment) (state_of s mem.now) ∷ []) }
{
    let mut tlv = [0u8; 20];
    let n = put_payment(&mut tlv, payment);
    let ours = own_data(s, mem);
    if find_tlv(ours, &tlv[..n]).is_some() {
        return Err(Refusal::PaidAlready);
    }
    if PUBLISH_LIMIT < ours.len() + n {
        return Err(Refusal::DataFull);
    }
    Ok(())
}

// The payment published, and what stands last.
pub fn pay(
    s: State,
    mem: &mut [u8],
    clock: Reading,
    payment: Payment,
    randoms: [u32; MOST_ENDPOINTS],
) -> State
    requires { Rep s mem.old × (Midway clock (state_of s mem.old) × ((among (payment_tlv (told payment)) (tlvs (own_data (state_of s mem.old))) ≡ false) × (length (own_data (state_of s mem.old)) + length (payment_tlv (told payment)) ≤ publish_limit))) }
    ensures { Published (paid clock (told payment) randoms (state_of s mem.old)) s mem.old result mem.new }
{
    let now = clock.milliseconds();
    let mut tlv = [0u8; 20];
    let n = put_payment(&mut tlv, payment);
    let seq = advanced(own_seq(s, mem), 1);
    let t = publish_with(s, mem, now, seq, &tlv[..n]);
    let found = reach(t.table, mem, t.own, now);
    settle(t, now, randoms, found)
}
