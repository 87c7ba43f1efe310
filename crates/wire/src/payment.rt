// Payments: a signed amount folded, and the three numbers of a payment as a TLV.
ghost use Rattle.std.specs.Prelude.{◌≡◌, ◌+◌, ◌≤◌, length};
ghost use Rattle.base.specs.Memory.{written};
ghost use Rattle.wire.specs.Payment.{folded, unfolded, payment_value, payment_tlv, read_payment};
ghost use Rattle.wire.specs.Answers.{as_payment, told};

use crate::groups::{put_groups, read_groups};
use crate::kind::Kind;
use crate::row::close_tlv;

// 0, -1, 1, -2 become 0, 1, 2, 3.
pub fn fold(x: i32) -> u32
    ensures { result ≡ folded x }
{
    if x < 0 {
        (-1 - x) as u32 * 2 + 1
    } else {
        x as u32 * 2
    }
}

// The amount that is folded to u.
pub fn unfold(u: u32) -> i32
    ensures { result ≡ unfolded u }
{
    let half = (u / 2) as i32;
    if u % 2 == 0 { half } else { -1 - half }
}

// What a payment says: an amount of a household, told apart from its others by the receipt.
#[derive(Clone, Copy, Debug, PartialEq, Eq)]
pub struct Payment {
    pub household: u32,
    pub receipt: u32,
    pub amount: i32,
}

const MOST: u64 = u32::MAX as u64;

const LEAST_HOUSEHOLD: u64 = 1;

const MOST_HOUSEHOLD: u64 = 9999;

// The payment that a value holds.
pub fn read_payment(value: &[u8]) -> Option<Payment>
    ensures { as_payment result ≡ read_payment value.now }
{
    let first = read_groups(value, 0, MOST)?;
    let second = read_groups(value, first.next, MOST)?;
    let third = read_groups(value, second.next, MOST)?;
    if third.next < value.len() {
        return None;
    }
    let household = first.number;
    if household < LEAST_HOUSEHOLD || MOST_HOUSEHOLD < household {
        return None;
    }
    Some(Payment {
        household: household as u32,
        receipt: second.number as u32,
        amount: unfold(third.number as u32),
    })
}

// A payment's value from `at` on; the place after it.
fn put_value(d: &mut [u8], at: usize, payment: Payment) -> usize
    requires { at + 15 ≤ length d.old }
    ensures { (d.new ≡ written d.old at (payment_value (told payment))) × (result ≡ at + length (payment_value (told payment))) × (result ≤ at + 15) }
{
    let a = put_groups(d, at, u64::from(payment.household));
    let b = put_groups(d, a, u64::from(payment.receipt));
    put_groups(d, b, u64::from(fold(payment.amount)))
}

// The TLV of a payment to the front of d; its size.
pub fn put_payment(d: &mut [u8], payment: Payment) -> usize
    requires { 20 ≤ length d.old }
    ensures { (d.new ≡ written d.old 0 (payment_tlv (told payment))) × (result ≡ length (payment_tlv (told payment))) × (result ≤ 20) }
{
    let e = put_value(d, 4, payment);
    close_tlv(d, 0, Kind::Payment as u16, e - 4)
}
