//! Values at turns of expressions of 1 and 2 bits, turn by turn.

use crate::turns::first_other;
use scev_base::Width;
use scev_calculator::Step::{self, Minimum, Number, Product, Rec, Sext, Sum, Trunc, Udiv, UminSeq};
use scev_fold::MinKind::{Smax, Umin};
use std::test::Fail;

const BIT: Width = Width { bits: 1 };

const PAIR: Width = Width { bits: 2 };

/// Steps at 1 bit, and the value of what they form at each turn from 0 to 20.
const AT_1: [(&[Step], [u64; 21]); 11] = [
    // A sum of recurrences.
    (
        &[
            Number(1),
            Number(1),
            Number(1),
            Rec(3),
            Number(0),
            Number(1),
            Rec(2),
            Sum,
        ],
        [
            1, 1, 0, 0, 1, 1, 0, 0, 1, 1, 0, 0, 1, 1, 0, 0, 1, 1, 0, 0, 1,
        ],
    ),
    // A product of recurrences.
    (
        &[
            Number(1),
            Number(1),
            Number(1),
            Rec(3),
            Number(0),
            Number(1),
            Rec(2),
            Product,
        ],
        [
            0, 0, 0, 1, 0, 0, 0, 1, 0, 0, 0, 1, 0, 0, 0, 1, 0, 0, 0, 1, 0,
        ],
    ),
    // A third power.
    (
        &[
            Number(0),
            Number(1),
            Rec(2),
            Number(0),
            Number(1),
            Rec(2),
            Product,
            Number(0),
            Number(1),
            Rec(2),
            Product,
        ],
        [
            0, 1, 0, 1, 0, 1, 0, 1, 0, 1, 0, 1, 0, 1, 0, 1, 0, 1, 0, 1, 0,
        ],
    ),
    // A chain of five parts.
    (
        &[
            Number(1),
            Number(0),
            Number(1),
            Number(1),
            Number(1),
            Rec(5),
        ],
        [
            1, 1, 0, 1, 0, 0, 1, 0, 1, 1, 0, 1, 0, 0, 1, 0, 1, 1, 0, 1, 0,
        ],
    ),
    // A difference.
    (
        &[
            Number(0),
            Number(1),
            Rec(2),
            Number(1),
            Number(1),
            Number(1),
            Number(1),
            Rec(3),
            Product,
            Sum,
        ],
        [
            1, 1, 0, 0, 1, 1, 0, 0, 1, 1, 0, 0, 1, 1, 0, 0, 1, 1, 0, 0, 1,
        ],
    ),
    // A quotient.
    (
        &[Number(1), Number(1), Number(1), Rec(3), Number(1), Udiv],
        [
            1, 0, 0, 1, 1, 0, 0, 1, 1, 0, 0, 1, 1, 0, 0, 1, 1, 0, 0, 1, 1,
        ],
    ),
    // The least, read as unsigned.
    (
        &[
            Number(1),
            Number(1),
            Number(1),
            Rec(3),
            Number(0),
            Number(1),
            Rec(2),
            Minimum(Umin),
        ],
        [
            0, 0, 0, 1, 0, 0, 0, 1, 0, 0, 0, 1, 0, 0, 0, 1, 0, 0, 0, 1, 0,
        ],
    ),
    // The greatest, read as signed.
    (
        &[
            Number(1),
            Number(1),
            Number(1),
            Rec(3),
            Number(0),
            Number(1),
            Rec(2),
            Minimum(Smax),
        ],
        [
            0, 0, 0, 1, 0, 0, 0, 1, 0, 0, 0, 1, 0, 0, 0, 1, 0, 0, 0, 1, 0,
        ],
    ),
    // The least in sequence.
    (
        &[
            Number(0),
            Number(1),
            Number(1),
            Rec(3),
            Number(0),
            Number(1),
            Rec(2),
            UminSeq,
        ],
        [
            0, 1, 0, 0, 0, 1, 0, 0, 0, 1, 0, 0, 0, 1, 0, 0, 0, 1, 0, 0, 0,
        ],
    ),
    // The lowest bits of a product.
    (
        &[
            Number(1),
            Number(1),
            Number(1),
            Rec(3),
            Number(0),
            Number(1),
            Rec(2),
            Product,
            Trunc(1),
        ],
        [
            0, 0, 0, 1, 0, 0, 0, 1, 0, 0, 0, 1, 0, 0, 0, 1, 0, 0, 0, 1, 0,
        ],
    ),
    // With sign at 64 bits.
    (
        &[Number(0), Number(1), Rec(2), Sext(64)],
        [
            0,
            18_446_744_073_709_551_615,
            0,
            18_446_744_073_709_551_615,
            0,
            18_446_744_073_709_551_615,
            0,
            18_446_744_073_709_551_615,
            0,
            18_446_744_073_709_551_615,
            0,
            18_446_744_073_709_551_615,
            0,
            18_446_744_073_709_551_615,
            0,
            18_446_744_073_709_551_615,
            0,
            18_446_744_073_709_551_615,
            0,
            18_446_744_073_709_551_615,
            0,
        ],
    ),
];

#[test]
fn at_1(rt: HostRuntime) -> Result<(), Fail> {
    for (steps, values) in AT_1 {
        assert_eq!(rt;
            first_other(rt.alloc(), BIT, steps, &values)?,
            None,
            "{steps:?}"
        );
    }
    Ok(())
}

/// Steps at 2 bits, and the value of what they form at each turn from 0 to 20.
const AT_2: [(&[Step], [u64; 21]); 11] = [
    // A sum of recurrences.
    (
        &[
            Number(1),
            Number(3),
            Number(2),
            Rec(3),
            Number(2),
            Number(3),
            Rec(2),
            Sum,
        ],
        [
            3, 1, 1, 3, 3, 1, 1, 3, 3, 1, 1, 3, 3, 1, 1, 3, 3, 1, 1, 3, 3,
        ],
    ),
    // A product of recurrences.
    (
        &[
            Number(1),
            Number(3),
            Number(2),
            Rec(3),
            Number(2),
            Number(3),
            Rec(2),
            Product,
        ],
        [
            2, 0, 0, 0, 2, 0, 0, 0, 2, 0, 0, 0, 2, 0, 0, 0, 2, 0, 0, 0, 2,
        ],
    ),
    // A third power.
    (
        &[
            Number(2),
            Number(3),
            Rec(2),
            Number(2),
            Number(3),
            Rec(2),
            Product,
            Number(2),
            Number(3),
            Rec(2),
            Product,
        ],
        [
            0, 1, 0, 3, 0, 1, 0, 3, 0, 1, 0, 3, 0, 1, 0, 3, 0, 1, 0, 3, 0,
        ],
    ),
    // A chain of five parts.
    (
        &[
            Number(3),
            Number(1),
            Number(2),
            Number(3),
            Number(1),
            Rec(5),
        ],
        [
            3, 0, 3, 3, 0, 3, 2, 0, 1, 2, 1, 1, 2, 1, 0, 2, 3, 0, 3, 3, 0,
        ],
    ),
    // A difference.
    (
        &[
            Number(2),
            Number(3),
            Rec(2),
            Number(3),
            Number(1),
            Number(3),
            Number(2),
            Rec(3),
            Product,
            Sum,
        ],
        [
            1, 1, 3, 3, 1, 1, 3, 3, 1, 1, 3, 3, 1, 1, 3, 3, 1, 1, 3, 3, 1,
        ],
    ),
    // A quotient.
    (
        &[Number(1), Number(3), Number(2), Rec(3), Number(3), Udiv],
        [
            0, 0, 0, 0, 0, 0, 0, 0, 0, 0, 0, 0, 0, 0, 0, 0, 0, 0, 0, 0, 0,
        ],
    ),
    // The least, read as unsigned.
    (
        &[
            Number(1),
            Number(3),
            Number(2),
            Rec(3),
            Number(2),
            Number(3),
            Rec(2),
            Minimum(Umin),
        ],
        [
            1, 0, 0, 0, 1, 0, 0, 0, 1, 0, 0, 0, 1, 0, 0, 0, 1, 0, 0, 0, 1,
        ],
    ),
    // The greatest, read as signed.
    (
        &[
            Number(1),
            Number(3),
            Number(2),
            Rec(3),
            Number(2),
            Number(3),
            Rec(2),
            Minimum(Smax),
        ],
        [
            1, 1, 1, 0, 1, 1, 1, 0, 1, 1, 1, 0, 1, 1, 1, 0, 1, 1, 1, 0, 1,
        ],
    ),
    // The least in sequence.
    (
        &[
            Number(0),
            Number(1),
            Number(3),
            Rec(3),
            Number(2),
            Number(3),
            Rec(2),
            UminSeq,
        ],
        [
            0, 1, 0, 0, 2, 1, 0, 2, 0, 1, 0, 0, 2, 1, 0, 2, 0, 1, 0, 0, 2,
        ],
    ),
    // The lowest bits of a product.
    (
        &[
            Number(1),
            Number(3),
            Number(2),
            Rec(3),
            Number(2),
            Number(3),
            Rec(2),
            Product,
            Trunc(1),
        ],
        [
            0, 0, 0, 0, 0, 0, 0, 0, 0, 0, 0, 0, 0, 0, 0, 0, 0, 0, 0, 0, 0,
        ],
    ),
    // With sign at 64 bits.
    (
        &[Number(2), Number(3), Rec(2), Sext(64)],
        [
            18_446_744_073_709_551_614,
            1,
            0,
            18_446_744_073_709_551_615,
            18_446_744_073_709_551_614,
            1,
            0,
            18_446_744_073_709_551_615,
            18_446_744_073_709_551_614,
            1,
            0,
            18_446_744_073_709_551_615,
            18_446_744_073_709_551_614,
            1,
            0,
            18_446_744_073_709_551_615,
            18_446_744_073_709_551_614,
            1,
            0,
            18_446_744_073_709_551_615,
            18_446_744_073_709_551_614,
        ],
    ),
];

#[test]
fn at_2(rt: HostRuntime) -> Result<(), Fail> {
    for (steps, values) in AT_2 {
        assert_eq!(rt;
            first_other(rt.alloc(), PAIR, steps, &values)?,
            None,
            "{steps:?}"
        );
    }
    Ok(())
}
