//! Numbers.

ghost use Rattle.std.specs.Prelude.{◌≡◌, ◌^◌, ◌<◌, ◌≤◌, pos, length, nat_lt, if◌then◌else◌, None, Some, IsTrue, IfOk};
ghost use Rattle.std.specs.Char.{digit_value};
ghost use Rattle.sc_lexer.specs.Number.{value_of, is_hex, numeral_size, numeral_value, number_at};

use crate::class::{digits, goes_on, hex_digits};
use crate::refusal::Refused;

/// A number of the source: how many bytes it takes, and its value.
#[derive(Clone, Copy, Debug, PartialEq, Eq)]
pub struct Numeral {
    pub size: usize,
    pub value: i64,
}

/// The number at the front of the bytes, which begin with a digit.
#[tactic(auto, unfolding(crate::specs::Number::number_at))]
pub fn number_at(bytes: &[u8]) -> Result<Numeral, Refused>
    ensures number { result ≡ number_at bytes.now }
    ensures within { IfOk result (λ n. n.size ≤ length bytes.now) }
{
    let size = numeral_size(bytes);
    let Some(value) = numeral_value(bytes) else {
        return Err(Refused::WideNumber);
    };
    if goes_on(&bytes[size..]) {
        return Err(Refused::BadToken(size));
    }
    Ok(Numeral { size, value })
}

/// How many bytes the number takes.
#[tactic(auto, using(crate::proofs::NumberLaws::sizes))]
fn numeral_size(bytes: &[u8]) -> usize
    ensures size { result ≡ numeral_size bytes.now }
    ensures within { result ≤ length bytes.now }
{
    if is_hex(bytes) {
        2 + hex_digits(&bytes[2..])
    } else if bytes.starts_with(b"0") {
        1
    } else {
        digits(bytes)
    }
}

/// The value of the number, if it has 64 bits with sign.
fn numeral_value(bytes: &[u8]) -> Option<i64>
    ensures { result ≡ (if nat_lt (numeral_value bytes.now) (2 ^ 63) then Some (pos (numeral_value bytes.now)) else None) }
{
    if is_hex(bytes) {
        let rest = &bytes[2..];
        return value_of(&rest[..hex_digits(rest)], 16);
    }
    value_of(&bytes[..numeral_size(bytes)], 10)
}

/// Whether the bytes begin with `0x` or `0X` and a hexadecimal digit.
fn is_hex(bytes: &[u8]) -> bool
    ensures value { result ≡ is_hex bytes.now }
    ensures long { IsTrue result → 3 ≤ length bytes.now }
{
    match bytes {
        [zero, mark, digit, ..] => {
            *zero == b'0' && (*mark == b'x' || *mark == b'X') && digit.is_ascii_hexdigit()
        }
        _ => false,
    }
}

/// What the digits stand for, if it has 64 bits with sign.
#[tactic(auto, using(crate::proofs::NumberLaws::values))]
fn value_of(digits: &[u8], radix: u64) -> Option<i64>
    requires { 0 < radix }
    ensures { result ≡ (if nat_lt (value_of radix digits.now) (2 ^ 63) then Some (pos (value_of radix digits.now)) else None) }
{
    let mut value: u64 = 0;
    for digit in digits {
        let Some(shifted) = value.checked_mul(radix) else {
            return None;
        };
        let Some(sum) = shifted.checked_add(digit_value(*digit)) else {
            return None;
        };
        value = sum;
    }
    i64::try_from(value).ok()
}

/// What a digit stands for.
fn digit_value(digit: u8) -> u64
    ensures { result ≡ digit_value digit }
{
    let value = match digit {
        b'0'..=b'9' => digit - b'0',
        b'A'..=b'Z' => digit - b'A' + 10,
        b'a'..=b'z' => digit - b'a' + 10,
        _ => 36,
    };
    value as u64
}
