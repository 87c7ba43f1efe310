// Why a call is refused, the first of its order that applies (document 01, Numbers a call may answer; document 02).
ghost use Rattle.std.specs.Prelude.{◌≡◌, [], ◌∷◌, length, IfOk};
ghost use Rattle.wire.specs.Answers.{told};
ghost use Rattle.model.specs.Figures.{most_bytes, snapshot_bytes};
ghost use Rattle.model.specs.Numbers.{number_of};
ghost use Rattle.model.specs.State.{State as ModelState};
ghost use Rattle.model.specs.Refusals.{first_of, late, back, no_such_endpoint, no_interval, small_table, small_room, long, no_row, no_household};
ghost use Rattle.model.specs.KeepAlive.{refusal_keep_alive};
ghost use Rattle.model.specs.Pay.{refusal_pay};
ghost use Rattle.node.specs.View.{state_of};
ghost use Rattle.ledger.specs.Promises.{AsLeft};

use model::endpoint::EndpointNumber;
use model::figures::{
    LEAST_HOUSEHOLD, LEAST_KEEP_ALIVE, MOST_BYTES, MOST_HOUSEHOLD, MOST_KEEP_ALIVE, SNAPSHOT_BYTES,
    TABLE_BYTES,
};
use model::numbers::Refusal;
use model::reading::Reading;
use node::State;
use wire::payment::Payment;
use wire::row::is_row;

// 1 and 2: the clock.
fn of_clock(last: u64, clock: u64) -> Result<Reading, Refusal>
    ensures number { (s : ModelState) → s.last ≡ last → number_of result ≡ first_of (late clock ∷ back clock s ∷ []) }
    ensures held { IfOk result (λ r. r ≡ clock) }
{
    let reading = Reading::of(clock)?;
    if clock < last {
        return Err(Refusal::ClockBack);
    }
    Ok(reading)
}

// 1 and 4: what begins has no reading before it.
pub fn of_start(clock: u64, table: usize) -> Result<Reading, Refusal>
    ensures number { number_of result ≡ first_of (late clock ∷ small_table table ∷ []) }
    ensures held { IfOk result (λ r. r ≡ clock) }
{
    of_table(0, clock, table)
}

// 1, 2 and 4: the clock, and the table memory.
pub fn of_table(last: u64, clock: u64, table: usize) -> Result<Reading, Refusal>
    ensures number { (s : ModelState) → s.last ≡ last → number_of result ≡ first_of (late clock ∷ back clock s ∷ small_table table ∷ []) }
    ensures held { IfOk result (λ r. r ≡ clock) }
{
    let reading = of_clock(last, clock)?;
    if table < TABLE_BYTES {
        return Err(Refusal::BufferTooSmall);
    }
    Ok(reading)
}

// 1, 2, 4 and 7: a household besides.
pub fn of_household(last: u64, clock: u64, table: usize, household: u32) -> Result<Reading, Refusal>
    ensures number { (s : ModelState) → s.last ≡ last → number_of result ≡ first_of (late clock ∷ back clock s ∷ small_table table ∷ no_household household ∷ []) }
    ensures held { IfOk result (λ r. r ≡ clock) }
{
    let reading = of_table(last, clock, table)?;
    if !(LEAST_HOUSEHOLD..=MOST_HOUSEHOLD).contains(&household) {
        return Err(Refusal::NoSuchHousehold);
    }
    Ok(reading)
}

// 1, 2, 4, 7, 8 and 9: what our own data say of a payment besides.
pub fn of_payment(
    state: State,
    memory: &[u8],
    clock: u64,
    payment: Payment,
) -> Result<Reading, Refusal>
    requires { AsLeft state memory.now }
    ensures number { number_of result ≡ refusal_pay clock (told payment) (length memory.now) (state_of state memory.now) }
    ensures held { IfOk result (λ r. r ≡ clock) }
{
    let reading = of_household(state.last, clock, memory.len(), payment.household)?;
    accounts::pay::refusal(state, memory, clock, payment)?;
    Ok(reading)
}

// 1, 2 and 4: the clock, the table memory and the room for a snapshot.
pub fn of_save(last: u64, clock: u64, table: usize, room: usize) -> Result<Reading, Refusal>
    ensures number { (s : ModelState) → s.last ≡ last → number_of result ≡ first_of (late clock ∷ back clock s ∷ small_room table room snapshot_bytes ∷ []) }
    ensures held { IfOk result (λ r. r ≡ clock) }
{
    let reading = of_table(last, clock, table)?;
    if room < SNAPSHOT_BYTES {
        return Err(Refusal::BufferTooSmall);
    }
    Ok(reading)
}

// 1 to 3: the clock, and the endpoint.
pub fn of_endpoint(
    last: u64,
    clock: u64,
    endpoint: u32,
) -> Result<(Reading, EndpointNumber), Refusal>
    ensures number { (s : ModelState) → s.last ≡ last → number_of result ≡ first_of (late clock ∷ back clock s ∷ no_such_endpoint endpoint ∷ []) }
    ensures held { IfOk result (λ r. (r.0 ≡ clock) × (r.1 ≡ endpoint)) }
{
    let reading = of_clock(last, clock)?;
    let number = EndpointNumber::of(endpoint)?;
    Ok((reading, number))
}

// 1, 2, 3, 12 and 4: a keep-alive interval and the table memory besides.
pub fn of_interval(
    last: u64,
    clock: u64,
    endpoint: u32,
    interval: u32,
    table: usize,
) -> Result<(Reading, EndpointNumber), Refusal>
    ensures number { (s : ModelState) → s.last ≡ last → number_of result ≡ first_of (late clock ∷ back clock s ∷ no_such_endpoint endpoint ∷ no_interval interval ∷ small_table table ∷ []) }
    ensures held { IfOk result (λ r. (r.0 ≡ clock) × (r.1 ≡ endpoint)) }
{
    let place = of_endpoint(last, clock, endpoint)?;
    if !(LEAST_KEEP_ALIVE..=MOST_KEEP_ALIVE).contains(&interval) {
        return Err(Refusal::NoSuchInterval);
    }
    if table < TABLE_BYTES {
        return Err(Refusal::BufferTooSmall);
    }
    Ok(place)
}

// 1, 2, 3, 12, 4 and 9: what our own data say of a choice besides.
pub fn of_choice(
    state: State,
    memory: &[u8],
    clock: u64,
    endpoint: u32,
    interval: u32,
) -> Result<(Reading, EndpointNumber), Refusal>
    requires { AsLeft state memory.now }
    ensures number { number_of result ≡ refusal_keep_alive clock endpoint interval (length memory.now) (state_of state memory.now) }
    ensures held { IfOk result (λ r. (r.0 ≡ clock) × (r.1 ≡ endpoint)) }
{
    let place = of_interval(state.last, clock, endpoint, interval, memory.len())?;
    upkeep::choice::refusal(state, memory, clock, place.1, interval)?;
    Ok(place)
}

// 1 to 4: lent memory for what is sent besides.
pub fn of_tick(
    last: u64,
    clock: u64,
    endpoint: u32,
    table: usize,
    room: usize,
) -> Result<(Reading, EndpointNumber), Refusal>
    ensures number { (s : ModelState) → s.last ≡ last → number_of result ≡ first_of (late clock ∷ back clock s ∷ no_such_endpoint endpoint ∷ small_room table room most_bytes ∷ []) }
    ensures held { IfOk result (λ r. (r.0 ≡ clock) × (r.1 ≡ endpoint)) }
{
    let place = of_endpoint(last, clock, endpoint)?;
    if table < TABLE_BYTES || room < MOST_BYTES {
        return Err(Refusal::BufferTooSmall);
    }
    Ok(place)
}

// 1 to 6: the datagram besides.
pub fn of_datagram(
    last: u64,
    clock: u64,
    endpoint: u32,
    table: usize,
    room: usize,
    datagram: &[u8],
) -> Result<(Reading, EndpointNumber), Refusal>
    ensures number { (s : ModelState) → s.last ≡ last → number_of result ≡ first_of (late clock ∷ back clock s ∷ no_such_endpoint endpoint ∷ small_room table room most_bytes ∷ long datagram.now ∷ no_row datagram.now ∷ []) }
    ensures held { IfOk result (λ r. (r.0 ≡ clock) × (r.1 ≡ endpoint)) }
{
    let place = of_tick(last, clock, endpoint, table, room)?;
    if MOST_BYTES < datagram.len() {
        return Err(Refusal::DatagramTooLong);
    }
    if !is_row(datagram) {
        return Err(Refusal::DatagramMalformed);
    }
    Ok(place)
}
