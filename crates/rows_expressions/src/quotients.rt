//! Quotients, each written in the normal form.

use crate::formed::forms;
use scev_calculator::Step::{self, Leaf, Number, Udiv};
use std::test::Fail;

/// Steps at 32 bits, and the quotient that they form.
const QUOTIENTS: [(&[Step], &str); 13] = [
    // Of numbers, read as unsigned and rounded down.
    (&[Number(7), Number(2), Udiv], "3"),
    (&[Number(4_294_967_295), Number(2), Udiv], "2147483647"),
    // By 0 it has no value, and stays.
    (&[Number(7), Number(0), Udiv], "(7 /u 0)"),
    (&[Leaf(0), Number(0), Udiv], "(%a /u 0)"),
    (&[Number(0), Leaf(0), Udiv], "(0 /u %a)"),
    (&[Leaf(0), Leaf(0), Udiv], "(%a /u %a)"),
    // By 1, and by another number.
    (&[Leaf(0), Number(1), Udiv], "%a"),
    (&[Leaf(0), Number(2), Udiv], "(%a /u 2)"),
    // By a number and by another: by their product, which may be too great.
    (&[Leaf(0), Number(2), Udiv, Number(3), Udiv], "(%a /u 6)"),
    (
        &[Leaf(0), Number(65_536), Udiv, Number(65_535), Udiv],
        "(%a /u -65536)",
    ),
    (&[Leaf(0), Number(65_536), Udiv, Number(65_536), Udiv], "0"),
    // Not where one of both is no number.
    (
        &[Leaf(0), Leaf(1), Udiv, Number(3), Udiv],
        "((%a /u %b) /u 3)",
    ),
    (
        &[Leaf(0), Number(3), Udiv, Leaf(1), Udiv],
        "((%a /u 3) /u %b)",
    ),
];

#[test]
fn quotients_by_numbers(rt: HostRuntime) -> Result<(), Fail> {
    for (steps, text) in QUOTIENTS {
        assert!(rt; forms(rt.alloc(), steps, text)?, "{text}");
    }
    Ok(())
}
