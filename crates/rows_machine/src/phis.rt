//! Functions with a loop of one block, and what their register 0 is.

use crate::build::Line::{self, Add, Branch, Jump, Phi, Ret};
use crate::build::function;
use classify::{Definitions, classify_phi, is_thin};
use ir_model::Operand::{self, Num};
use loop_regions::loops;
use scev_base::ValueId;
use std::test::Fail;

const PHI: Operand = Operand::Reg(ValueId(0));

const NEXT: Operand = Operand::Reg(ValueId(1));

const OTHER: Operand = Operand::Reg(ValueId(2));

const ONE: Operand = Num(1);

/// It starts at 0 on both edges.
const COUNTER: Line = Phi(0, &[(Num(0), 0), (Num(0), 2), (NEXT, 1)]);

/// An addition of numerals.
const ELSEWHERE: Line = Add(2, false, Num(5), Num(6));

/// Two instructions of the loop, block 1, and one of block 2, from which control comes to it, as from block 0;
/// then the start and the step of register 0.
const FOUND: [(Line, Line, Line, Option<(u64, u64)>); 6] = [
    (COUNTER, Add(1, false, PHI, ONE), ELSEWHERE, Some((0, 1))),
    // 7 and 2^32 + 7 are one start, and the numeral may stand on the left.
    (
        Phi(0, &[(Num(7), 0), (Num(4_294_967_303), 2), (NEXT, 1)]),
        Add(1, false, Num(-1), PHI),
        ELSEWHERE,
        Some((7, 4_294_967_295)),
    ),
    // 0 and 1 are two.
    (
        Phi(0, &[(Num(0), 0), (Num(1), 2), (NEXT, 1)]),
        Add(1, false, PHI, ONE),
        ELSEWHERE,
        None,
    ),
    // The phi stands behind another instruction.
    (Add(1, false, PHI, ONE), COUNTER, ELSEWHERE, None),
    // The sum stands outside the loop.
    (
        Phi(0, &[(Num(0), 0), (Num(0), 2), (OTHER, 1)]),
        Add(1, false, Num(5), Num(6)),
        Add(2, false, PHI, ONE),
        None,
    ),
    // A register is added.
    (COUNTER, Add(1, false, PHI, OTHER), ELSEWHERE, None),
];

#[test]
fn starts_and_steps(rt: HostRuntime) -> Result<(), Fail> {
    for (first, second, third, found) in FOUND {
        let turns = [first, second, Branch(ONE, 1, 3)];
        let before = [third, Jump(1)];
        let rows: [(u64, &[Line]); 4] = [
            (0, &[Branch(ONE, 1, 2)]),
            (1, &turns),
            (2, &before),
            (3, &[Ret(ONE)]),
        ];
        let f = function(rt.alloc(), &rows)?;
        assert!(rt; is_thin(&f) && f.params.is_empty());
        let loops = loops(rt.alloc(), &f)?;
        let definitions = Definitions::new(rt.alloc(), &f)?;
        assert_eq!(rt; classify_phi(&f, &loops, &definitions, ValueId(0))?, found);
    }
    Ok(())
}
