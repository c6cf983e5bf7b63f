//! Limits of what is formed.

use crate::formed::error_of;
use scev_base::{ExprId, Width};
use scev_calculator::CalculatorError::{Refused, Unfit};
use scev_calculator::Step::{Bits, Leaf, Number, Product, Rec, Sum, Trunc, Zext};
use scev_calculator::{Calculator, CalculatorError, Step};
use scev_fold::FoldError::{TooDeep, TooHigh, TooWide};
use std::alloc::Global;

const WORD: Width = Width { bits: 32 };

/// Steps at 32 bits, and why they form nothing.
const REFUSED: [(&[Step], Option<CalculatorError>); 9] = [
    // C(t, 5) · C(t, 4) has C(9, 4) = 126 as its ninth difference. C(t, 4) · C(t, 4) is of degree eight.
    (
        &[
            Number(0),
            Number(0),
            Number(0),
            Number(0),
            Number(0),
            Number(1),
            Rec(6),
            Number(0),
            Number(0),
            Number(0),
            Number(0),
            Number(1),
            Rec(5),
            Product,
        ],
        Some(Refused(TooHigh)),
    ),
    (
        &[
            Number(0),
            Number(0),
            Number(0),
            Number(0),
            Number(1),
            Rec(5),
            Number(0),
            Number(0),
            Number(0),
            Number(0),
            Number(1),
            Rec(5),
            Product,
        ],
        None,
    ),
    // 6 · 6 monomials, and 5 · 6.
    (
        &[
            Leaf(0),
            Leaf(1),
            Sum,
            Leaf(2),
            Sum,
            Leaf(3),
            Sum,
            Leaf(4),
            Sum,
            Leaf(5),
            Sum,
            Leaf(6),
            Leaf(7),
            Sum,
            Leaf(8),
            Sum,
            Leaf(9),
            Sum,
            Leaf(10),
            Sum,
            Leaf(11),
            Sum,
            Product,
        ],
        Some(Refused(TooWide)),
    ),
    (
        &[
            Leaf(0),
            Leaf(1),
            Sum,
            Leaf(2),
            Sum,
            Leaf(3),
            Sum,
            Leaf(4),
            Sum,
            Leaf(6),
            Leaf(7),
            Sum,
            Leaf(8),
            Sum,
            Leaf(9),
            Sum,
            Leaf(10),
            Sum,
            Leaf(11),
            Sum,
            Product,
        ],
        None,
    ),
    // What the calculator itself refuses: two widths, an extension to fewer bits, a truncation to more, no parts, and
    // too few expressions.
    (&[Leaf(0), Bits(8), Leaf(1), Sum], Some(Unfit)),
    (&[Leaf(0), Zext(8)], Some(Unfit)),
    (&[Leaf(0), Trunc(64)], Some(Unfit)),
    (&[Rec(0)], Some(Unfit)),
    (&[Leaf(0), Sum], Some(Unfit)),
];

#[test]
fn products_above_limits(rt: HostRuntime) {
    for (steps, error) in REFUSED {
        assert_eq!(rt; error_of(rt.alloc(), steps), error, "{steps:?}");
    }
}

/// The quotient of a register, by another one so many times.
fn divided(alloc: Global, times: u32) -> Result<ExprId, CalculatorError> {
    let mut calculator = Calculator::new(alloc)?;
    let mut id = calculator.leaf(WORD, 0, false)?;
    let by = calculator.leaf(WORD, 1, false)?;
    for _ in 0..times {
        id = calculator.udiv(id, by)?;
    }
    Ok(id)
}

/// The quotient of a register by itself, then of that by itself, so many times.
fn divided_by_itself(alloc: Global, times: u32) -> Result<ExprId, CalculatorError> {
    let mut calculator = Calculator::new(alloc)?;
    let mut id = calculator.leaf(WORD, 0, false)?;
    for _ in 0..times {
        id = calculator.udiv(id, id)?;
    }
    Ok(id)
}

/// A register has two levels, and each quotient two more: 64 levels at most.
#[test]
fn depth(rt: HostRuntime) {
    assert!(rt; divided(rt.alloc(), 31).is_ok());
    assert_eq!(rt; divided(rt.alloc(), 32).err(), Some(Refused(TooDeep)));
}

/// A register has two nodes, and each quotient two more than twice as many: 2, 6, 14 and so on, 256 at most.
#[test]
fn nodes(rt: HostRuntime) {
    assert!(rt; divided_by_itself(rt.alloc(), 6).is_ok());
    assert_eq!(rt;
        divided_by_itself(rt.alloc(), 7).err(),
        Some(Refused(TooDeep))
    );
}
