//! Minima and maxima, and sequential ones, each written in the normal form.

use crate::formed::forms;
use scev_calculator::Step::{self, Leaf, Minimum, Number, UminSeq};
use scev_fold::MinKind::{Smax, Smin, Umax, Umin};
use std::test::Fail;

/// Steps at 32 bits, and the minimum or maximum that they form.
const MINIMA: [(&[Step], &str); 6] = [
    // Parts stand in order, each once.
    (&[Leaf(1), Leaf(0), Minimum(Umin)], "(%a umin %b)"),
    (&[Leaf(0), Leaf(0), Minimum(Umin)], "%a"),
    (
        &[Leaf(0), Leaf(1), Minimum(Smax), Leaf(0), Minimum(Smax)],
        "(%a smax %b)",
    ),
    // One of the same kind is taken in, and one of another isn't.
    (
        &[Leaf(0), Leaf(1), Minimum(Umin), Leaf(2), Minimum(Umin)],
        "(%a umin %b umin %c)",
    ),
    (
        &[Leaf(0), Leaf(1), Leaf(2), Minimum(Smin), Minimum(Smin)],
        "(%a smin %b smin %c)",
    ),
    (
        &[Leaf(0), Leaf(1), Minimum(Umin), Leaf(2), Minimum(Umax)],
        "((%a umin %b) umax %c)",
    ),
];

#[test]
fn minima_are_flat(rt: HostRuntime) -> Result<(), Fail> {
    for (steps, text) in MINIMA {
        assert!(rt; forms(rt.alloc(), steps, text)?, "{text}");
    }
    Ok(())
}

/// Steps at 32 bits, and the minimum or maximum with numbers that they form.
const WITH_NUMBERS: [(&[Step], &str); 15] = [
    // Numbers are joined.
    (
        &[Leaf(0), Number(3), Minimum(Umin), Number(5), Minimum(Umin)],
        "(3 umin %a)",
    ),
    (
        &[Leaf(0), Number(3), Minimum(Umax), Number(5), Minimum(Umax)],
        "(5 umax %a)",
    ),
    (
        &[
            Leaf(0),
            Number(3),
            Minimum(Smin),
            Number(4_294_967_295),
            Minimum(Smin),
        ],
        "(-1 smin %a)",
    ),
    (
        &[
            Leaf(0),
            Number(3),
            Minimum(Smax),
            Number(4_294_967_295),
            Minimum(Smax),
        ],
        "(3 smax %a)",
    ),
    (&[Number(3), Number(4_294_967_295), Minimum(Smax)], "3"),
    (&[Number(3), Number(4_294_967_295), Minimum(Umax)], "-1"),
    // The number that is never chosen goes, unless there is nothing else.
    (&[Leaf(0), Number(4_294_967_295), Minimum(Umin)], "%a"),
    (&[Leaf(0), Number(0), Minimum(Umax)], "%a"),
    (&[Leaf(0), Number(2_147_483_647), Minimum(Smin)], "%a"),
    (&[Leaf(0), Number(2_147_483_648), Minimum(Smax)], "%a"),
    (&[Number(0), Number(0), Minimum(Umax)], "0"),
    // The number that is always chosen is the answer.
    (&[Leaf(0), Number(0), Minimum(Umin)], "0"),
    (&[Leaf(0), Number(4_294_967_295), Minimum(Umax)], "-1"),
    (
        &[Leaf(0), Number(2_147_483_648), Minimum(Smin)],
        "-2147483648",
    ),
    (
        &[Leaf(0), Number(2_147_483_647), Minimum(Smax)],
        "2147483647",
    ),
];

#[test]
fn numbers_in_minima(rt: HostRuntime) -> Result<(), Fail> {
    for (steps, text) in WITH_NUMBERS {
        assert!(rt; forms(rt.alloc(), steps, text)?, "{text}");
    }
    Ok(())
}

/// Steps at 32 bits, and the sequential minimum that they form.
const SEQUENCES: [(&[Step], &str); 10] = [
    // Parts stay in their order; one of the same kind is taken in, on either side, and one of another isn't.
    (&[Leaf(1), Leaf(0), UminSeq], "(%b umin_seq %a)"),
    (
        &[Leaf(2), Leaf(1), UminSeq, Leaf(0), UminSeq],
        "(%c umin_seq %b umin_seq %a)",
    ),
    (
        &[Leaf(2), Leaf(1), Leaf(0), UminSeq, UminSeq],
        "(%c umin_seq %b umin_seq %a)",
    ),
    (
        &[Leaf(0), Leaf(1), Minimum(Umin), Leaf(2), UminSeq],
        "((%a umin %b) umin_seq %c)",
    ),
    // A part that was there goes.
    (
        &[Leaf(0), Leaf(1), UminSeq, Leaf(0), UminSeq],
        "(%a umin_seq %b)",
    ),
    (&[Leaf(0), Leaf(0), UminSeq], "%a"),
    // Neighbouring numbers are joined, and others aren't.
    (
        &[Leaf(0), Number(5), UminSeq, Number(3), UminSeq],
        "(%a umin_seq 3)",
    ),
    (
        &[Number(5), Leaf(0), UminSeq, Number(3), UminSeq],
        "(5 umin_seq %a umin_seq 3)",
    ),
    // A first part that is 0 is the answer, and a later one isn't.
    (&[Number(0), Leaf(0), UminSeq], "0"),
    (&[Leaf(0), Number(0), UminSeq], "(%a umin_seq 0)"),
];

#[test]
fn sequential_minima(rt: HostRuntime) -> Result<(), Fail> {
    for (steps, text) in SEQUENCES {
        assert!(rt; forms(rt.alloc(), steps, text)?, "{text}");
    }
    Ok(())
}
