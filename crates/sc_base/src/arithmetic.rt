//! The operators on whole numbers of 64 bits with sign, with their faults.

ghost use Rattle.std.specs.Prelude.{◌≡◌, ◌*ℤ◌, ◌^◌, ◌<◌, pos, int_div, int_rem, int_le, int_lt, ◌&&◌};
ghost use Rattle.sc_base.specs.Arithmetic.{binary_of, unary_of, divided, shifted, floor_div};

use crate::operator::{Binary, Unary};
use crate::value::FaultKind;

/// The whole-number result of `a op b`, or the fault that comes in its place: Divide for a zero divisor, Shift
/// for a count outside 0 to 63, and Overflow for a result that has no 64 bits with sign. `Div` and `Rem`
/// truncate towards zero, the remainder of the least number by -1 is 0, `Shr` rounds down, and comparisons give
/// 1 or 0.
pub fn binary(op: Binary, a: i64, b: i64) -> Result<i64, FaultKind>
    ensures { result ≡ binary_of op a b }
{
    match op {
        Binary::Add => a.checked_add(b).ok_or(FaultKind::Overflow),
        Binary::Sub => a.checked_sub(b).ok_or(FaultKind::Overflow),
        Binary::Mul => a.checked_mul(b).ok_or(FaultKind::Overflow),
        Binary::Div => quotient(a, b),
        Binary::Rem => remainder(a, b),
        Binary::Shl => shift_left(a, b),
        Binary::Shr => shift_right(a, b),
        Binary::And => Ok(a & b),
        Binary::Or => Ok(a | b),
        Binary::Xor => Ok(a ^ b),
        Binary::Eq => Ok((a == b) as i64),
        Binary::Ne => Ok((a != b) as i64),
        Binary::Lt => Ok((a < b) as i64),
        Binary::Le => Ok((a <= b) as i64),
        Binary::Gt => Ok((a > b) as i64),
        Binary::Ge => Ok((a >= b) as i64),
    }
}

fn quotient(a: i64, b: i64) -> Result<i64, FaultKind>
    ensures { result ≡ divided int_div a b }
{
    let missing = if b == 0 {
        FaultKind::Divide
    } else {
        FaultKind::Overflow
    };
    a.checked_div(b).ok_or(missing)
}

fn remainder(a: i64, b: i64) -> Result<i64, FaultKind>
    ensures { result ≡ divided int_rem a b }
{
    if b == 0 {
        return Err(FaultKind::Divide);
    }
    Ok(a.checked_rem(b).unwrap_or(0))
}

fn shift_left(a: i64, b: i64) -> Result<i64, FaultKind>
    ensures { result ≡ shifted (λ count. a *ℤ pos (2 ^ count)) b }
{
    if !is_count(b) {
        return Err(FaultKind::Shift);
    }
    i128::from(a)
        .checked_mul(power_of_two(b as u32))
        .and_then(|wide| i64::try_from(wide).ok())
        .ok_or(FaultKind::Overflow)
}

fn shift_right(a: i64, b: i64) -> Result<i64, FaultKind>
    ensures { result ≡ shifted (λ count. floor_div a (2 ^ count)) b }
{
    if !is_count(b) {
        return Err(FaultKind::Shift);
    }
    Ok(a >> b)
}

/// Whether a number of 64 bits can be shifted by so many places.
fn is_count(b: i64) -> bool
    ensures { result ≡ (int_le (pos 0) b && int_lt b (pos 64)) }
{
    (0..64).contains(&b)
}

fn power_of_two(count: u32) -> i128
    requires { count < 64 }
    ensures { result ≡ pos (2 ^ count) }
{
    i128::from(1u64 << count)
}

/// The result of `op a`: the negated number, Overflow for the least one, or 1 or 0 for `Not`, or the complement
/// of every bit.
pub fn unary(op: Unary, a: i64) -> Result<i64, FaultKind>
    ensures { result ≡ unary_of op a }
{
    match op {
        Unary::Minus => a.checked_neg().ok_or(FaultKind::Overflow),
        Unary::Not => Ok((a == 0) as i64),
        Unary::Invert => Ok(!a),
    }
}

#[cfg(test)]
mod tests {
    use super::*;

    #[test]
    fn operators_of_two_give_the_exact_number_or_its_fault(rt: HostRuntime) {
        let cases = [
            (Binary::Add, 2, 3, Ok(5)),
            (Binary::Add, i64::MAX, 1, Err(FaultKind::Overflow)),
            (Binary::Sub, 2, 3, Ok(-1)),
            (Binary::Sub, i64::MIN, 1, Err(FaultKind::Overflow)),
            (Binary::Mul, -4, 3, Ok(-12)),
            (Binary::Mul, 1 << 32, 1 << 31, Err(FaultKind::Overflow)),
            (Binary::Div, -7, 2, Ok(-3)),
            (Binary::Div, 7, 0, Err(FaultKind::Divide)),
            (Binary::Div, i64::MIN, -1, Err(FaultKind::Overflow)),
            (Binary::Rem, -7, 2, Ok(-1)),
            (Binary::Rem, 7, 0, Err(FaultKind::Divide)),
            (Binary::Rem, i64::MIN, -1, Ok(0)),
            (Binary::Shl, 1, 62, Ok(4611686018427387904)),
            (Binary::Shl, 1, 63, Err(FaultKind::Overflow)),
            (Binary::Shl, -1, 63, Ok(i64::MIN)),
            (Binary::Shl, 0, 64, Err(FaultKind::Shift)),
            (Binary::Shl, 0, -1, Err(FaultKind::Shift)),
            (Binary::Shr, -5, 1, Ok(-3)),
            (Binary::Shr, -1, 63, Ok(-1)),
            (Binary::Shr, 0, 64, Err(FaultKind::Shift)),
        ];
        for (op, a, b, want) in cases {
            assert_eq!(rt; binary(op, a, b), want, "{a} {op:?} {b}");
        }
    }

    #[test]
    fn bits_comparisons_and_operators_of_one(rt: HostRuntime) {
        let cases = [
            (Binary::And, 12, 10, 8),
            (Binary::Or, 12, 10, 14),
            (Binary::Xor, 12, 10, 6),
            (Binary::And, -1, 5, 5),
            (Binary::Eq, 4, 4, 1),
            (Binary::Ne, 4, 4, 0),
            (Binary::Lt, -1, 0, 1),
            (Binary::Le, 0, 0, 1),
            (Binary::Gt, -1, 0, 0),
            (Binary::Ge, 0, 0, 1),
        ];
        for (op, a, b, want) in cases {
            assert_eq!(rt; binary(op, a, b), Ok(want), "{a} {op:?} {b}");
        }
        let cases = [
            (Unary::Minus, 5, Ok(-5)),
            (Unary::Minus, i64::MIN, Err(FaultKind::Overflow)),
            (Unary::Not, 0, Ok(1)),
            (Unary::Not, -2, Ok(0)),
            (Unary::Invert, 0, Ok(-1)),
        ];
        for (op, a, want) in cases {
            assert_eq!(rt; unary(op, a), want, "{op:?} {a}");
        }
    }
}
