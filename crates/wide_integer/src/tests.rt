//! Numbers on both sides of the limits of 64 bits, with expected values by hand.

use crate::Wide;
use std::test::Fail;

#[test]
fn numbers_of_64_bits_are_themselves(rt: HostRuntime) -> Result<(), Fail> {
    let numbers = [
        0,
        1,
        -1,
        0xffff_ffff,
        0x1_0000_0000,
        -0xffff_ffff,
        -0x1_0000_0000,
        i64::MAX,
        i64::MIN,
    ];
    for number in numbers {
        assert_eq!(rt; Wide::of(rt.alloc(), number)?.to_i64(), Some(number));
    }
    Ok(())
}

#[test]
fn sums_and_differences_at_the_limits(rt: HostRuntime) -> Result<(), Fail> {
    let rows = [
        (2, 3, Some(5), Some(-1)),
        (-2, -3, Some(-5), Some(1)),
        (i64::MAX, 1, None, Some(0x7fff_ffff_ffff_fffe)),
        (i64::MAX, i64::MIN, Some(-1), None),
        (i64::MIN, 1, Some(-0x7fff_ffff_ffff_ffff), None),
        (i64::MIN, -1, None, Some(-0x7fff_ffff_ffff_ffff)),
        (0, i64::MIN, Some(i64::MIN), None),
        (0xffff_ffff, 1, Some(0x1_0000_0000), Some(0xffff_fffe)),
        (i64::MIN, i64::MIN, None, Some(0)),
    ];
    for (a, b, sum, difference) in rows {
        let (one, other) = (Wide::of(rt.alloc(), a)?, Wide::of(rt.alloc(), b)?);
        assert_eq!(rt; one.plus(&other)?.to_i64(), sum);
        assert_eq!(rt; one.minus(&other)?.to_i64(), difference);
    }
    Ok(())
}

#[test]
fn products_at_the_limits(rt: HostRuntime) -> Result<(), Fail> {
    let rows = [
        (6, 7, Some(42)),
        (-6, 7, Some(-42)),
        (0, i64::MIN, Some(0)),
        (i64::MIN, 1, Some(i64::MIN)),
        (i64::MIN, -1, None),
        (i64::MAX, -1, Some(-0x7fff_ffff_ffff_ffff)),
        (0x8000_0000, 0x1_0000_0000, None),
        (-0x8000_0000, 0x1_0000_0000, Some(i64::MIN)),
        (i64::MIN, i64::MIN, None),
    ];
    for (a, b, product) in rows {
        assert_eq!(rt; Wide::of(rt.alloc(), a)?.times(b)?.to_i64(), product);
    }
    Ok(())
}

#[test]
fn numbers_come_back_from_far_beyond_64_bits(rt: HostRuntime) -> Result<(), Fail> {
    let one = Wide::of(rt.alloc(), 7)?;
    let mut far = Wide::of(rt.alloc(), -1)?;
    for _ in 0..40 {
        far = far.times(i64::MAX)?;
    }
    assert_eq!(rt; far.to_i64(), None);
    let sum = far.plus(&one)?;
    assert_eq!(rt; sum.to_i64(), None);
    assert_eq!(rt; sum.minus(&far)?.to_i64(), Some(7));
    assert_eq!(rt; far.times(0)?.to_i64(), Some(0));
    Ok(())
}
