//! Digits of 32 bits, least first, and what is carried from one to the next.

ghost use Rattle.std.specs.Prelude.{◌≡◌, ◌^◌, ◌+ℤ◌, ◌*ℤ◌, ◌≤ℤ◌, pos, negsuc};
ghost use Rattle.wide_integer.specs.Value.{value_over, sign, digit_at, in_64_bits, narrowed};

/// One more than the greatest digit.
const BASE: i128 = 4_294_967_296;

/// A number as its least digit and what stands above it.
#[derive(Clone, Copy, Debug, PartialEq, Eq)]
pub(crate) struct Parts {
    pub(crate) low: u32,
    pub(crate) high: i128,
}

pub(crate) fn split(number: i128) -> Parts
    ensures { pos result.low +ℤ pos 4294967296 *ℤ result.high ≡ number }
{
    Parts {
        low: number.rem_euclid(BASE) as u32,
        high: number.div_euclid(BASE),
    }
}

/// The digit with this number, also past those that are written.
pub(crate) fn digit(digits: &[u32], negative: bool, at: usize) -> u32
    ensures { result ≡ digit_at digits.now negative at }
{
    match digits.get(at) {
        Some(digit) => *digit,
        None if negative => u32::MAX,
        None => 0,
    }
}

/// A factor times a digit.
fn product(factor: i64, digit: u32) -> i128
    ensures value { result ≡ factor *ℤ pos digit }
    ensures low { negsuc (2 ^ 95) ≤ℤ result }
    ensures high { result ≤ℤ pos (2 ^ 95) }
{
    i128::from(factor) * i128::from(digit)
}

/// What is carried, a digit, and so many times another digit.
pub(crate) fn next(carry: i128, one: u32, factor: i64, other: u32) -> Parts
    requires low { negsuc (2 ^ 64) ≤ℤ carry }
    requires high { carry ≤ℤ pos (2 ^ 64) }
    ensures value { pos result.low +ℤ pos 4294967296 *ℤ result.high ≡ carry +ℤ pos one +ℤ factor *ℤ pos other }
    ensures low { negsuc (2 ^ 64) ≤ℤ result.high }
    ensures high { result.high ≤ℤ pos (2 ^ 64) }
{
    split(carry + i128::from(one) + product(factor, other))
}

/// A factor times the number all of whose digits are ones, or zeros.
fn above_all(factor: i64, negative: bool) -> i128
    ensures value { result ≡ factor *ℤ sign negative }
    ensures low { negsuc (2 ^ 64) ≤ℤ result }
    ensures high { result ≤ℤ pos (2 ^ 64) }
{
    if negative { -i128::from(factor) } else { 0 }
}

/// What is carried above the last digits, and what stands there.
pub(crate) fn top(carry: i128, negative: bool, factor: i64, other_negative: bool) -> i128
    requires low { negsuc (2 ^ 64) ≤ℤ carry }
    requires high { carry ≤ℤ pos (2 ^ 64) }
    ensures { result ≡ carry +ℤ sign negative +ℤ factor *ℤ sign other_negative }
{
    let one = above_all(1, negative);
    carry + one + above_all(factor, other_negative)
}

/// The number with one digit below it, if both have 64 bits.
fn above(number: Option<i64>, digit: u32) -> Option<i64>
    ensures { result ≡ narrowed number digit }
{
    let number = i128::from(number?) * BASE + i128::from(digit);
    i64::try_from(number).ok()
}

/// The number that has these digits, if it has 64 bits.
pub(crate) fn narrow(digits: &[u32], negative: bool) -> Option<i64>
    ensures { result ≡ in_64_bits (value_over digits.now (sign negative)) }
{
    let mut number = Some(if negative { -1 } else { 0 });
    let mut i = digits.len();
    while i > 0 {
        i -= 1;
        number = above(number, digits[i]);
    }
    number
}
