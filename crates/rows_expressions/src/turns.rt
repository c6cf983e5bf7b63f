//! Expressions once the loop is at a turn.

use crate::formed::{error_of, forms};
use scev_base::{ExprId, Width};
use scev_calculator::CalculatorError::Hindered;
use scev_calculator::Step::{
    AtTurn, Bits, Defined, Leaf, Minimum, Number, Product, Rec, Sum, Zext,
};
use scev_calculator::{Calculator, CalculatorError, Step};
use scev_fold::MinKind::Umin;
use std::alloc::Global;
use std::test::Fail;

/// The width of counts.
const DOUBLE: Width = Width { bits: 64 };

/// The first turn at which what the steps form isn't the number in the list. None where there is no such turn.
pub(crate) fn first_other(
    alloc: Global,
    w: Width,
    steps: &[Step],
    values: &[u64],
) -> Result<Option<usize>, CalculatorError> {
    let mut calculator = Calculator::new(alloc)?;
    let id = calculator.carry_out(w, steps)?;
    for (turn, value) in values.iter().enumerate() {
        if number_at(&mut calculator, id, turn as u64)? != Some(*value) {
            return Ok(Some(turn));
        }
    }
    Ok(None)
}

/// The number that an expression is at a turn. None where it is none.
fn number_at(
    calculator: &mut Calculator,
    id: ExprId,
    turn: u64,
) -> Result<Option<u64>, CalculatorError> {
    let count = calculator.constant(DOUBLE, turn)?;
    let found = calculator.at_turn(id, count)?;
    calculator.number(found)
}

/// Steps at 32 bits unless they say otherwise, and the expression at a turn that they form.
const TURNS: [(&[Step], &str); 14] = [
    // t · t at turn 5, and the counter at the last count of 32 bits.
    (
        &[
            Number(0),
            Number(1),
            Rec(2),
            Number(0),
            Number(1),
            Rec(2),
            Product,
            Number(5),
            AtTurn,
        ],
        "25",
    ),
    (
        &[Number(0), Number(1), Rec(2), Number(4_294_967_295), AtTurn],
        "-1",
    ),
    // At a number.
    (
        &[Leaf(0), Leaf(1), Rec(2), Number(3), AtTurn],
        "(%a + (3 * %b))",
    ),
    (
        &[Leaf(0), Leaf(1), Leaf(2), Rec(3), Number(3), AtTurn],
        "(%a + (3 * %b) + (3 * %c))",
    ),
    (
        &[Number(1), Number(2), Number(3), Rec(3), Number(0), AtTurn],
        "1",
    ),
    (
        &[Number(1), Number(2), Number(3), Rec(3), Number(1), AtTurn],
        "3",
    ),
    // At a register of the width, of fewer bits and of more.
    (&[Number(0), Number(1), Rec(2), Leaf(1), AtTurn], "%b"),
    (
        &[Leaf(0), Number(2), Rec(2), Leaf(1), AtTurn],
        "(%a + (2 * %b))",
    ),
    (
        &[Number(0), Number(1), Rec(2), Bits(8), Leaf(1), AtTurn],
        "(zext i8 %b to i32)",
    ),
    (
        &[Number(0), Number(1), Rec(2), Bits(64), Leaf(1), AtTurn],
        "(trunc i64 %b to i32)",
    ),
    // In an atom, which is formed anew.
    (
        &[
            Number(0),
            Number(1),
            Rec(2),
            Number(5),
            Minimum(Umin),
            Number(7),
            AtTurn,
        ],
        "5",
    ),
    (
        &[
            Number(0),
            Number(1),
            Rec(2),
            Number(5),
            Minimum(Umin),
            Leaf(1),
            AtTurn,
        ],
        "(5 umin %b)",
    ),
    (
        &[
            Bits(8),
            Number(0),
            Number(1),
            Rec(2),
            Zext(32),
            Bits(32),
            Number(300),
            AtTurn,
        ],
        "44",
    ),
    // What doesn't change stays.
    (&[Leaf(0), Leaf(1), Sum, Leaf(2), AtTurn], "(%a + %b)"),
];

#[test]
fn written_at_turns(rt: HostRuntime) -> Result<(), Fail> {
    for (steps, text) in TURNS {
        assert!(rt; forms(rt.alloc(), steps, text)?, "{text}");
    }
    Ok(())
}

/// Steps at 32 bits that ask for a turn at which there is no value.
const HINDERED: [&[Step]; 4] = [
    // A register that is defined in the loop, whatever the count is.
    &[Defined(0), Number(3), AtTurn],
    &[
        Number(0),
        Number(1),
        Rec(2),
        Defined(0),
        Sum,
        Number(3),
        AtTurn,
    ],
    // At a register, of three parts, and by steps that are no number.
    &[Number(0), Number(1), Number(1), Rec(3), Leaf(1), AtTurn],
    &[Number(0), Leaf(0), Rec(2), Leaf(1), AtTurn],
];

#[test]
fn hindered_at_turns(rt: HostRuntime) {
    for steps in HINDERED {
        assert_eq!(rt; error_of(rt.alloc(), steps), Some(Hindered), "{steps:?}");
    }
}
