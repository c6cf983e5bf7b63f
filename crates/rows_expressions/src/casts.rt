//! Truncations and extensions, each written in the normal form.

use crate::formed::forms;
use scev_calculator::Step::{
    self, Bits, Defined, Leaf, Number, Product, Rec, Sext, Sum, Trunc, Udiv, Unwrapped, Zext,
};
use std::test::Fail;

/// Steps at 32 bits unless they say otherwise, and the truncation that they form.
const TRUNCATIONS: [(&[Step], &str); 17] = [
    // A number is truncated, a register isn't, and what has the width is itself.
    (&[Number(511), Trunc(8)], "-1"),
    (&[Leaf(0), Trunc(8)], "(trunc i32 %a to i8)"),
    (&[Leaf(0), Trunc(32)], "%a"),
    // Into coefficients, factors and parts.
    (
        &[Number(257), Leaf(0), Product, Trunc(8)],
        "(trunc i32 %a to i8)",
    ),
    (&[Number(256), Leaf(0), Product, Trunc(8)], "0"),
    (
        &[Number(2), Leaf(0), Product, Number(3), Sum, Trunc(8)],
        "(3 + (2 * (trunc i32 %a to i8)))",
    ),
    (
        &[Leaf(0), Leaf(1), Product, Trunc(8)],
        "((trunc i32 %a to i8) * (trunc i32 %b to i8))",
    ),
    (&[Number(256), Number(257), Rec(2), Trunc(8)], "{0,+,1}<%l>"),
    (
        &[Leaf(0), Number(256), Rec(2), Trunc(8)],
        "(trunc i32 %a to i8)",
    ),
    // Not into a quotient.
    (
        &[Leaf(0), Leaf(1), Udiv, Trunc(8)],
        "(trunc i32 (%a /u %b) to i8)",
    ),
    // Of a truncation, and of an extension of what is narrower, as wide, or wider.
    (&[Leaf(0), Trunc(16), Trunc(8)], "(trunc i32 %a to i8)"),
    (
        &[Bits(8), Leaf(0), Zext(32), Trunc(16)],
        "(zext i8 %a to i16)",
    ),
    (&[Bits(8), Leaf(0), Zext(32), Trunc(8)], "%a"),
    (
        &[Bits(8), Leaf(0), Zext(32), Trunc(4)],
        "(trunc i8 %a to i4)",
    ),
    (
        &[Bits(8), Leaf(0), Sext(32), Trunc(16)],
        "(sext i8 %a to i16)",
    ),
    (&[Bits(8), Leaf(0), Sext(32), Trunc(8)], "%a"),
    (
        &[Bits(8), Leaf(0), Sext(32), Trunc(4)],
        "(trunc i8 %a to i4)",
    ),
];

#[test]
fn truncations_go_inside(rt: HostRuntime) -> Result<(), Fail> {
    for (steps, text) in TRUNCATIONS {
        assert!(rt; forms(rt.alloc(), steps, text)?, "{text}");
    }
    Ok(())
}

/// Steps, and the extension that they form.
const EXTENSIONS: [(&[Step], &str); 14] = [
    // Numbers are extended by their readings, and what has the width is itself.
    (&[Bits(8), Number(255), Zext(32)], "255"),
    (&[Bits(8), Number(255), Sext(32)], "-1"),
    (&[Bits(8), Number(127), Sext(32)], "127"),
    (&[Bits(1), Number(1), Zext(8)], "1"),
    (&[Bits(1), Number(1), Sext(8)], "-1"),
    (&[Leaf(0), Zext(32)], "%a"),
    (&[Leaf(0), Sext(32)], "%a"),
    // A register isn't, and an extension of an extension is one, unless the inner one alone is with sign.
    (&[Bits(8), Leaf(0), Zext(32)], "(zext i8 %a to i32)"),
    (&[Bits(8), Leaf(0), Sext(32)], "(sext i8 %a to i32)"),
    (
        &[Bits(8), Leaf(0), Zext(16), Zext(32)],
        "(zext i8 %a to i32)",
    ),
    (
        &[Bits(8), Leaf(0), Sext(16), Sext(32)],
        "(sext i8 %a to i32)",
    ),
    (
        &[Bits(8), Leaf(0), Zext(16), Sext(32)],
        "(zext i8 %a to i32)",
    ),
    (
        &[Bits(8), Leaf(0), Sext(16), Zext(32)],
        "(zext i16 (sext i8 %a to i16) to i32)",
    ),
    // A sum stays inside.
    (
        &[Bits(8), Leaf(0), Number(1), Sum, Zext(32)],
        "(zext i8 (1 + %a) to i32)",
    ),
];

#[test]
fn extensions_are_joined(rt: HostRuntime) -> Result<(), Fail> {
    for (steps, text) in EXTENSIONS {
        assert!(rt; forms(rt.alloc(), steps, text)?, "{text}");
    }
    Ok(())
}

/// Steps, and the extension of a recurrence that they form.
const UNWRAPPED: [(&[Step], &str); 9] = [
    // Of one that may wrap.
    (
        &[Bits(8), Number(0), Number(1), Rec(2), Zext(32)],
        "(zext i8 {0,+,1}<%l> to i32)",
    ),
    (
        &[Bits(8), Number(0), Number(255), Rec(2), Sext(32)],
        "(sext i8 {0,+,-1}<%l> to i32)",
    ),
    // Of one that doesn't wrap: into both parts.
    (
        &[Bits(8), Number(0), Number(1), Rec(2), Unwrapped(false, 32)],
        "{0,+,1}<%l>",
    ),
    (
        &[
            Bits(8),
            Number(0),
            Number(255),
            Rec(2),
            Unwrapped(false, 32),
        ],
        "{0,+,255}<%l>",
    ),
    (
        &[Bits(8), Number(0), Number(255), Rec(2), Unwrapped(true, 32)],
        "{0,+,-1}<%l>",
    ),
    (
        &[Bits(8), Leaf(0), Number(1), Rec(2), Unwrapped(true, 32)],
        "{(sext i8 %a to i32),+,1}<%l>",
    ),
    // Not of three parts, of a sum, or of a register.
    (
        &[
            Bits(8),
            Number(0),
            Number(1),
            Number(2),
            Rec(3),
            Unwrapped(false, 32),
        ],
        "(zext i8 {0,+,1,+,2}<%l> to i32)",
    ),
    (
        &[
            Bits(8),
            Number(0),
            Number(1),
            Rec(2),
            Defined(0),
            Sum,
            Unwrapped(true, 32),
        ],
        "(sext i8 ({0,+,1}<%l> + %a) to i32)",
    ),
    (
        &[Bits(8), Leaf(0), Unwrapped(false, 32)],
        "(zext i8 %a to i32)",
    ),
];

#[test]
fn recurrences_that_do_not_wrap(rt: HostRuntime) -> Result<(), Fail> {
    for (steps, text) in UNWRAPPED {
        assert!(rt; forms(rt.alloc(), steps, text)?, "{text}");
    }
    Ok(())
}
