//! A whole number of any size, with sums, differences and products by a number of 64 bits.

ghost use Rattle.std.specs.Prelude.{◌≡◌, ◌+ℤ◌, ◌-ℤ◌, ◌*ℤ◌, IfOk};
ghost use Rattle.wide_integer.specs.Value.{value_over, sign, in_64_bits};

use crate::digits::{digit, narrow, next, split, top};
use std::alloc::{AllocError, Global};
use std::marker::Model;

/// A whole number of any size, in two's complement. Seen as the number.
#[derive(Debug, Drop)]
pub struct Wide {
    /// Digits of 32 bits, least first.
    digits: Vec<u32>,
    /// Whether all digits above these are ones.
    negative: bool,
}

impl Model for Wide {
    ghost use Rattle.std.specs.Prelude.{ℤ};
    ghost use Rattle.wide_integer.specs.Value.{value_over, sign};

    ghost Value = { ℤ };

    ghost view = { λ w. value_over w.digits.items (sign w.negative) };
}

/// The number that has these digits below the rest.
fn over(mut digits: Vec<u32>, mut rest: i128) -> Result<Wide, AllocError>
    ensures { IfOk result (λ number. number ≡ value_over digits.items rest) }
{
    while rest != 0 && rest != -1 {
        let parts = split(rest);
        digits.push(parts.low)?;
        rest = parts.high;
    }
    Ok(Wide {
        digits,
        negative: rest == -1,
    })
}

/// The first number and so many times the second, digit by digit.
fn sum_of(alloc: Global, a: &Wide, factor: i64, b: &Wide) -> Result<Wide, AllocError>
    ensures { IfOk result (λ sum. sum ≡ a.now +ℤ factor *ℤ b.now) }
{
    let (ones, others) = (a.digits.as_slice(), b.digits.as_slice());
    let count = ones.len().max(others.len());
    let mut digits = Vec::with_capacity(alloc, count)?;
    let mut carry = 0;
    for i in 0..count {
        let one = digit(ones, a.negative, i);
        let other = digit(others, b.negative, i);
        let parts = next(carry, one, factor, other);
        digits.push(parts.low)?;
        carry = parts.high;
    }
    over(digits, top(carry, a.negative, factor, b.negative))
}

impl Wide {
    /// The number itself.
    pub fn of(alloc: Global, number: i64) -> Result<Wide, AllocError>
        ensures { IfOk result (λ wide. wide ≡ number) }
    {
        over(Vec::new(alloc), i128::from(number))
    }

    pub fn plus(&self, other: &Wide) -> Result<Wide, AllocError>
        ensures { IfOk result (λ sum. sum ≡ self.now +ℤ other.now) }
    {
        sum_of(*self.digits.allocator(), self, 1, other)
    }

    pub fn minus(&self, other: &Wide) -> Result<Wide, AllocError>
        ensures { IfOk result (λ difference. difference ≡ self.now -ℤ other.now) }
    {
        sum_of(*self.digits.allocator(), self, -1, other)
    }

    pub fn times(&self, factor: i64) -> Result<Wide, AllocError>
        ensures { IfOk result (λ product. product ≡ factor *ℤ self.now) }
    {
        let zero = Wide::of(*self.digits.allocator(), 0)?;
        sum_of(*self.digits.allocator(), &zero, factor, self)
    }

    /// The number, if it has 64 bits with sign.
    pub fn to_i64(&self) -> Option<i64>
        ensures { result ≡ in_64_bits self.now }
    {
        narrow(self.digits.as_slice(), self.negative)
    }
}
