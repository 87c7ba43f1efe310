// Calls that change state.
ghost use Rattle.accounts.specs.Tallied.{payment_of};
ghost use Rattle.ledger.specs.Promises.{AsLeft, Begins, Resumes, Receives, Ticks, Chooses, Pays, Purges};

use crate::refusal;
use model::figures::MOST_ENDPOINTS;
use model::numbers::Refusal;
use node::State;
use node::answers::{Answer, Done, Sent};
use wire::payment::Payment;

// Begins with our node alone: empty data, sequence number 0, no peers. Also over a running node and at an earlier reading; all that was held is gone.
pub fn pingvratha_begin(
    state: State,
    memory: &[u8],
    own: u32,
    clock: u64,
    randoms: &[u32; MOST_ENDPOINTS],
) -> Done
    requires { AsLeft state memory.now }
    ensures { Begins own clock randoms.now state memory.now result }
{
    match refusal::of_start(clock, memory.len()) {
        Err(refusal) => Done::refused(refusal, state),
        Ok(now) => Done {
            number: 0,
            state: start::begin::begin(own, now, *randoms, memory),
        },
    }
}

// Goes on from a snapshot, at whatever reading. Our peers are unknown at first, so that only our own node is reachable, and our data are published anew.
// Keep-alive intervals are USUAL_INTERVAL again.
pub fn pingvratha_resume(
    state: State,
    memory: &mut [u8],
    snapshot: &[u8],
    clock: u64,
    randoms: &[u32; MOST_ENDPOINTS],
) -> Done
    requires { AsLeft state memory.old }
    ensures { Resumes snapshot.now clock randoms.now state memory.old result memory.new }
{
    match refusal::of_start(clock, memory.len()) {
        Err(refusal) => Done::refused(refusal, state),
        Ok(now) => match start::resume::resume(snapshot, memory, now, *randoms) {
            None => Done::refused(Refusal::NotASnapshot, state),
            Some(next) => Done {
                number: 0,
                state: next,
            },
        },
    }
}

// Takes in a datagram that came on the endpoint, by unicast or else by multicast, and writes the reply to the front of the room; length 0 means that there is
// none.
pub fn pingvratha_receive(
    state: State,
    memory: &mut [u8],
    room: &mut [u8],
    datagram: &[u8],
    clock: u64,
    endpoint: u32,
    unicast: bool,
    randoms: &[u32; MOST_ENDPOINTS],
) -> Answer
    requires { AsLeft state memory.old }
    ensures { Receives datagram.now clock endpoint unicast randoms.now state memory.old room.old result memory.new room.new }
{
    match refusal::of_datagram(
        state.last,
        clock,
        endpoint,
        memory.len(),
        room.len(),
        datagram,
    ) {
        Err(refusal) => Answer::refused(refusal, state),
        Ok((now, place)) => exchange::datagram::handle(
            state, memory, room, datagram, now, place, unicast, *randoms,
        ),
    }
}

// Does what is due on the endpoint: removes peers that fell silent, publishes our data anew before it is too old, and writes what is to be sent to the front
// of the room; length 0 means that there is nothing. At one reading a second and a third tick may still have something to do, a fourth never.
pub fn pingvratha_tick(
    state: State,
    memory: &mut [u8],
    room: &mut [u8],
    clock: u64,
    endpoint: u32,
    randoms: &[u32; MOST_ENDPOINTS],
) -> Sent
    requires { AsLeft state memory.old }
    ensures { Ticks clock endpoint randoms.now state memory.old room.old result memory.new room.new }
{
    match refusal::of_tick(state.last, clock, endpoint, memory.len(), room.len()) {
        Err(refusal) => Sent::refused(refusal, state),
        Ok((now, place)) => upkeep::tick::tick(state, memory, room, now, place, *randoms),
    }
}

// Chooses the endpoint's keep-alive interval in milliseconds: when ticks of the endpoint have sent nothing for so long, and a random delay of up to MOST_DELAY, one
// sends. Our data tell it to the peers, who remove us when they have not heard us for 2.1 times as long; unless it is USUAL_INTERVAL, as at first, it takes 12 bytes.
// begin and resume set that one again. With ten ticks a second choose 5000 or more: with a shorter one peers may remove us though nobody is gone.
pub fn pingvratha_keep_alive(
    state: State,
    memory: &mut [u8],
    clock: u64,
    endpoint: u32,
    interval: u32,
    randoms: &[u32; MOST_ENDPOINTS],
) -> Done
    requires { AsLeft state memory.old }
    ensures { Chooses clock endpoint interval randoms.now state memory.old result memory.new }
{
    match refusal::of_choice(state, memory, clock, endpoint, interval) {
        Err(refusal) => Done::refused(refusal, state),
        Ok((now, place)) => Done {
            number: 0,
            state: upkeep::choice::choose(state, memory, now, place, interval, *randoms),
        },
    }
}

// Puts a payment, in cents, into our data, where it takes 8, 12 or 16 bytes, and publishes it. Save before anything is sent. Only the same household, receipt
// and amount together are the same payment.
pub fn pingvratha_pay(
    state: State,
    memory: &mut [u8],
    clock: u64,
    household: u32,
    receipt: u32,
    amount: i32,
    randoms: &[u32; MOST_ENDPOINTS],
) -> Done
    requires { AsLeft state memory.old }
    ensures { Pays clock (payment_of household receipt amount) randoms.now state memory.old result memory.new }
{
    let payment = Payment {
        household,
        receipt,
        amount,
    };
    match refusal::of_payment(state, memory, clock, payment) {
        Err(refusal) => Done::refused(refusal, state),
        Ok(now) => Done {
            number: 0,
            state: accounts::pay::pay(state, memory, now, payment, *randoms),
        },
    }
}

// Drops every node that is not reachable, its payments with it, which makes place for others. What is reachable again later comes again.
pub fn pingvratha_purge(
    state: State,
    memory: &[u8],
    clock: u64,
    randoms: &[u32; MOST_ENDPOINTS],
) -> Done
    requires { AsLeft state memory.now }
    ensures { Purges clock randoms.now state memory.now result }
{
    match refusal::of_table(state.last, clock, memory.len()) {
        Err(refusal) => Done::refused(refusal, state),
        Ok(now) => Done {
            number: 0,
            state: upkeep::purge::purge(state, memory, now, *randoms),
        },
    }
}
