//! Operators on numbers whose results are plain arithmetic.

use crate::fold::{
    Arithmetic, Comparison, compare, complement, fits, fold, negate, shift_left, shift_right,
};
use odc_types::Width;

#[test]
fn quotients_and_remainders(rt: HostRuntime) {
    assert!(rt; fold(Arithmetic::Divide, -7, 2) == Some(-3));
    assert!(rt; fold(Arithmetic::Remainder, -7, 3) == Some(-1));
    assert!(rt; fold(Arithmetic::Modulo, -7, 3) == Some(2));
    assert!(rt; fold(Arithmetic::Modulo, 7, -3) == Some(-2));
    assert!(rt; fold(Arithmetic::Modulo, -6, 3) == Some(0));
    assert!(rt; fold(Arithmetic::Divide, 1, 0).is_none());
    assert!(rt; fold(Arithmetic::Modulo, 1, 0).is_none());
    assert!(rt; fold(Arithmetic::Divide, i128::MIN, -1).is_none());
    assert!(rt; fold(Arithmetic::Remainder, i128::MIN, -1) == Some(0));
}

#[test]
fn sums_products_and_bits(rt: HostRuntime) {
    assert!(rt; fold(Arithmetic::Add, i128::MAX, 1).is_none());
    assert!(rt; fold(Arithmetic::Subtract, i128::MIN, 1).is_none());
    assert!(rt; fold(Arithmetic::Multiply, 1_000_000_007, -3) == Some(-3_000_000_021));
    assert!(rt; fold(Arithmetic::And, -1, 12) == Some(12));
    assert!(rt; fold(Arithmetic::AndNot, 14, 6) == Some(8));
    assert!(rt; fold(Arithmetic::Or, 8, 1) == Some(9));
    assert!(rt; fold(Arithmetic::Xor, -1, 5) == Some(-6));
    assert!(rt; negate(i128::MIN).is_none() && negate(5) == Some(-5));
    assert!(rt; complement(5) == -6);
}

#[test]
fn shifts(rt: HostRuntime) {
    assert!(rt; shift_left(3, 4) == Some(48));
    assert!(rt; shift_left(1, 127).is_none() && shift_left(-1, 127) == Some(i128::MIN));
    assert!(rt; shift_left(-1, 128).is_none() && shift_left(0, 1000) == Some(0));
    assert!(rt; shift_right(-5, 1) == -3 && shift_right(5, 1) == 2);
    assert!(rt; shift_right(5, 200) == 0 && shift_right(-5, 200) == -1);
}

#[test]
fn comparisons_and_widths(rt: HostRuntime) {
    assert!(rt; compare(Comparison::Less, -1, 0) && !compare(Comparison::Greater, -1, 0));
    assert!(rt; compare(Comparison::AtMost, 2, 2) && compare(Comparison::AtLeast, 2, 2));
    assert!(rt; compare(Comparison::Unequal, 2, 3) && !compare(Comparison::Equal, 2, 3));
    assert!(rt; fits(Width::I8, -128) && !fits(Width::I8, 128));
    assert!(rt;
        fits(Width::U64, 0xFFFF_FFFF_FFFF_FFFF) && !fits(Width::Int, 0x8000_0000_0000_0000)
    );
    assert!(rt; !fits(Width::U16, -1) && fits(Width::U16, 65535));
}
