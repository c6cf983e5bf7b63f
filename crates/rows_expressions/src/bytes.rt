//! Values at turns of expressions of 8 bits, turn by turn.

use crate::turns::first_other;
use scev_base::Width;
use scev_calculator::Step::{self, Minimum, Number, Product, Rec, Sext, Sum, Trunc, Udiv, UminSeq};
use scev_fold::MinKind::{Smax, Umin};
use std::test::Fail;

const BYTE: Width = Width { bits: 8 };

/// Steps at 8 bits, and the value of what they form at each turn from 0 to 20.
const AT_8: [(&[Step], [u64; 21]); 11] = [
    // A sum of recurrences.
    (
        &[
            Number(250),
            Number(7),
            Number(3),
            Rec(3),
            Number(100),
            Number(29),
            Rec(2),
            Sum,
        ],
        [
            94, 130, 169, 211, 0, 48, 99, 153, 210, 14, 77, 143, 212, 28, 103, 181, 6, 90, 177, 11,
            104,
        ],
    ),
    // A product of recurrences.
    (
        &[
            Number(250),
            Number(7),
            Number(3),
            Rec(3),
            Number(100),
            Number(29),
            Rec(2),
            Product,
        ],
        [
            168, 129, 202, 136, 192, 119, 178, 118, 200, 173, 42, 68, 0, 99, 114, 50, 168, 217,
            202, 128, 0,
        ],
    ),
    // A third power.
    (
        &[
            Number(100),
            Number(29),
            Rec(2),
            Number(100),
            Number(29),
            Rec(2),
            Product,
            Number(100),
            Number(29),
            Rec(2),
            Product,
        ],
        [
            64, 129, 120, 195, 0, 205, 200, 143, 192, 249, 216, 251, 0, 133, 40, 135, 64, 241, 56,
            179, 0,
        ],
    ),
    // A chain of five parts.
    (
        &[
            Number(1),
            Number(200),
            Number(3),
            Number(77),
            Number(5),
            Rec(5),
        ],
        [
            1, 201, 148, 175, 108, 34, 45, 238, 203, 47, 138, 81, 254, 16, 11, 120, 229, 229, 16,
            3, 96,
        ],
    ),
    // A difference.
    (
        &[
            Number(100),
            Number(29),
            Rec(2),
            Number(255),
            Number(250),
            Number(7),
            Number(3),
            Rec(3),
            Product,
            Sum,
        ],
        [
            106, 128, 147, 163, 176, 186, 193, 197, 198, 196, 191, 183, 172, 158, 141, 121, 98, 72,
            43, 11, 232,
        ],
    ),
    // A quotient.
    (
        &[Number(250), Number(7), Number(3), Rec(3), Number(7), Udiv],
        [
            35, 0, 1, 3, 5, 8, 11, 15, 19, 23, 28, 33, 2, 9, 15, 22, 30, 1, 9, 18, 27,
        ],
    ),
    // The least, read as unsigned.
    (
        &[
            Number(250),
            Number(7),
            Number(3),
            Rec(3),
            Number(100),
            Number(29),
            Rec(2),
            Minimum(Umin),
        ],
        [
            100, 1, 11, 24, 40, 59, 18, 47, 76, 105, 134, 163, 20, 63, 109, 23, 52, 9, 67, 128, 168,
        ],
    ),
    // The greatest, read as signed.
    (
        &[
            Number(250),
            Number(7),
            Number(3),
            Rec(3),
            Number(100),
            Number(29),
            Rec(2),
            Minimum(Smax),
        ],
        [
            100, 1, 11, 24, 40, 59, 81, 106, 76, 105, 199, 236, 20, 63, 109, 23, 52, 81, 110, 139,
            192,
        ],
    ),
    // The least in sequence.
    (
        &[
            Number(0),
            Number(64),
            Number(128),
            Rec(3),
            Number(100),
            Number(29),
            Rec(2),
            UminSeq,
        ],
        [
            0, 64, 0, 64, 0, 64, 0, 47, 0, 64, 0, 64, 0, 64, 0, 23, 0, 64, 0, 64, 0,
        ],
    ),
    // The lowest bits of a product.
    (
        &[
            Number(250),
            Number(7),
            Number(3),
            Rec(3),
            Number(100),
            Number(29),
            Rec(2),
            Product,
            Trunc(5),
        ],
        [
            8, 1, 10, 8, 0, 23, 18, 22, 8, 13, 10, 4, 0, 3, 18, 18, 8, 25, 10, 0, 0,
        ],
    ),
    // With sign at 64 bits.
    (
        &[Number(100), Number(29), Rec(2), Sext(64)],
        [
            100,
            18_446_744_073_709_551_489,
            18_446_744_073_709_551_518,
            18_446_744_073_709_551_547,
            18_446_744_073_709_551_576,
            18_446_744_073_709_551_605,
            18,
            47,
            76,
            105,
            18_446_744_073_709_551_494,
            18_446_744_073_709_551_523,
            18_446_744_073_709_551_552,
            18_446_744_073_709_551_581,
            18_446_744_073_709_551_610,
            23,
            52,
            81,
            110,
            18_446_744_073_709_551_499,
            18_446_744_073_709_551_528,
        ],
    ),
];

#[test]
fn at_8(rt: HostRuntime) -> Result<(), Fail> {
    for (steps, values) in AT_8 {
        assert_eq!(rt;
            first_other(rt.alloc(), BYTE, steps, &values)?,
            None,
            "{steps:?}"
        );
    }
    Ok(())
}
