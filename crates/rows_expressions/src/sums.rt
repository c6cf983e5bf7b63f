//! Sums, products and recurrences, each written in the normal form.

use crate::formed::forms;
use scev_calculator::Step::{self, Defined, Leaf, Number, Product, Rec, Sum};
use std::test::Fail;

/// Steps at 32 bits, and the sum that they form.
const SUMS: [(&[Step], &str); 8] = [
    // Of different registers nothing is joined, whatever their order is.
    (&[Leaf(0), Leaf(1), Sum], "(%a + %b)"),
    (&[Leaf(1), Leaf(0), Sum], "(%a + %b)"),
    // The coefficients of one register are added, and 0 goes.
    (&[Leaf(0), Leaf(0), Sum], "(2 * %a)"),
    (
        &[Leaf(0), Leaf(0), Number(4_294_967_295), Product, Sum],
        "0",
    ),
    (&[Leaf(0), Number(1), Sum, Number(4_294_967_295), Sum], "%a"),
    (&[Leaf(0), Number(1), Sum, Number(1), Sum], "(2 + %a)"),
    // Numbers are added modulo 2^32.
    (&[Number(3), Number(4), Sum], "7"),
    (&[Number(4_294_967_295), Number(1), Sum], "0"),
];

#[test]
fn sums_are_in_order(rt: HostRuntime) -> Result<(), Fail> {
    for (steps, text) in SUMS {
        assert!(rt; forms(rt.alloc(), steps, text)?, "{text}");
    }
    Ok(())
}

/// Steps at 32 bits, and the product that they form.
const PRODUCTS: [(&[Step], &str); 8] = [
    // Factors stand in order and may repeat.
    (&[Leaf(1), Leaf(0), Product], "(%a * %b)"),
    (&[Leaf(0), Leaf(0), Product], "(%a * %a)"),
    // Sums are multiplied out, and one monomial is there once.
    (
        &[Leaf(0), Leaf(1), Sum, Leaf(0), Leaf(1), Sum, Product],
        "((%a * %a) + (2 * %a * %b) + (%b * %b))",
    ),
    (
        &[
            Leaf(0),
            Number(1),
            Sum,
            Leaf(0),
            Number(4_294_967_295),
            Sum,
            Product,
        ],
        "(-1 + (%a * %a))",
    ),
    // By 1, by 0, and by numbers whose product is a multiple of 2^32.
    (&[Leaf(0), Number(1), Product], "%a"),
    (&[Leaf(0), Number(0), Product], "0"),
    (
        &[Leaf(0), Number(65_536), Product, Number(65_536), Product],
        "0",
    ),
    (
        &[Leaf(0), Number(65_536), Product, Number(32_768), Product],
        "(-2147483648 * %a)",
    ),
];

#[test]
fn products_are_multiplied_out(rt: HostRuntime) -> Result<(), Fail> {
    for (steps, text) in PRODUCTS {
        assert!(rt; forms(rt.alloc(), steps, text)?, "{text}");
    }
    Ok(())
}

/// Steps at 32 bits, and the recurrence that they form.
const RECURRENCES: [(&[Step], &str); 12] = [
    // Parts at the end that are 0 go, others stay, and one part is itself.
    (&[Leaf(0), Number(0), Rec(2)], "%a"),
    (&[Number(1), Number(2), Number(0), Rec(3)], "{1,+,2}<%l>"),
    (
        &[Number(0), Number(0), Number(1), Rec(3)],
        "{0,+,0,+,1}<%l>",
    ),
    (&[Leaf(0), Rec(1)], "%a"),
    // What doesn't change in the loop goes into the first part of a sum, and into each part of a product.
    (
        &[Number(0), Number(1), Rec(2), Number(5), Sum],
        "{5,+,1}<%l>",
    ),
    (
        &[Number(0), Number(1), Rec(2), Leaf(0), Sum],
        "{%a,+,1}<%l>",
    ),
    (
        &[Number(0), Number(1), Rec(2), Leaf(0), Product],
        "{0,+,%a}<%l>",
    ),
    // What changes in the loop stays outside.
    (
        &[Number(0), Number(1), Rec(2), Defined(0), Sum],
        "({0,+,1}<%l> + %a)",
    ),
    (
        &[Number(0), Number(1), Rec(2), Defined(0), Product],
        "({0,+,1}<%l> * %a)",
    ),
    // Recurrences are added part by part, and multiplied.
    (
        &[
            Number(1),
            Number(2),
            Rec(2),
            Number(3),
            Leaf(0),
            Rec(2),
            Sum,
        ],
        "{4,+,(2 + %a)}<%l>",
    ),
    (
        &[
            Number(1),
            Number(2),
            Rec(2),
            Number(3),
            Number(4_294_967_294),
            Rec(2),
            Sum,
        ],
        "4",
    ),
    (
        &[
            Number(0),
            Number(1),
            Rec(2),
            Number(0),
            Number(1),
            Rec(2),
            Product,
        ],
        "{0,+,1,+,2}<%l>",
    ),
];

#[test]
fn recurrences_are_gathered(rt: HostRuntime) -> Result<(), Fail> {
    for (steps, text) in RECURRENCES {
        assert!(rt; forms(rt.alloc(), steps, text)?, "{text}");
    }
    Ok(())
}
