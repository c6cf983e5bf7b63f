//! Loops of functions that are drawn by hand, a terminator a block.

use crate::build::Line::{self, Branch, Jump, Ret};
use crate::build::function;
use classify::is_thin;
use ir_model::Operand;
use loop_regions::loops;
use scev_base::{BlockId, LoopId};
use std::alloc::AllocError;

const ONE: Operand = Operand::Num(1);

const STOP: &[Line] = &[Ret(ONE)];

const FIRST: Option<LoopId> = Some(LoopId(0));

const SECOND: Option<LoopId> = Some(LoopId(1));

/// Blocks in text order, each with its number; the headers; and the loop that holds each number from 0 on.
const LOOPS: [(&[(u64, &[Line])], &[BlockId], &[Option<LoopId>]); 8] = [
    (
        &[(0, &[Jump(1)]), (1, &[Branch(ONE, 1, 2)]), (2, STOP)],
        &[BlockId(1)],
        &[None, FIRST, None, None],
    ),
    // Control meets block 3 before block 1, and passes block 4 on the way. The loops go by the text.
    (
        &[
            (0, &[Jump(3)]),
            (1, &[Branch(ONE, 1, 2)]),
            (2, STOP),
            (3, &[Branch(ONE, 4, 3)]),
            (4, &[Jump(1)]),
        ],
        &[BlockId(1), BlockId(3)],
        &[None, FIRST, None, SECOND, None],
    ),
    // The first one of two blocks with a number counts.
    (
        &[
            (0, &[Jump(1)]),
            (1, &[Branch(ONE, 2, 1)]),
            (2, STOP),
            (1, &[Jump(2)]),
        ],
        &[BlockId(1)],
        &[None, FIRST, None],
    ),
    (
        &[
            (0, &[Jump(1)]),
            (1, &[Jump(2)]),
            (2, STOP),
            (1, &[Branch(ONE, 2, 1)]),
        ],
        &[],
        &[None, None, None],
    ),
    // A block with a second walk back to it.
    (
        &[
            (0, &[Jump(1)]),
            (1, &[Branch(ONE, 1, 2)]),
            (2, &[Branch(ONE, 1, 3)]),
            (3, STOP),
        ],
        &[],
        &[None, None, None],
    ),
    // The same, where control also enters between.
    (
        &[
            (0, &[Branch(ONE, 1, 2)]),
            (1, &[Branch(ONE, 1, 2)]),
            (2, &[Branch(ONE, 1, 3)]),
            (3, STOP),
        ],
        &[],
        &[None, None, None],
    ),
    // An edge to itself that nothing reaches.
    (
        &[
            (0, &[Jump(1)]),
            (1, STOP),
            (2, &[Branch(ONE, 2, 1)]),
            (3, STOP),
        ],
        &[],
        &[None, None, None],
    ),
    // Two blocks that lead to each other.
    (
        &[
            (0, &[Jump(1)]),
            (1, &[Jump(2)]),
            (2, &[Branch(ONE, 1, 3)]),
            (3, STOP),
        ],
        &[],
        &[None, None, None],
    ),
];

#[test]
fn loops_of_one_block(rt: HostRuntime) -> Result<(), AllocError> {
    for (rows, headers, innermost) in LOOPS {
        let f = function(rt.alloc(), rows)?;
        assert!(rt; is_thin(&f) && f.params.is_empty());
        let table = loops(rt.alloc(), &f)?;
        assert_eq!(rt; table.headers(), headers);
        for (number, held) in innermost.iter().enumerate() {
            assert_eq!(rt; table.innermost(BlockId(number as u64)), *held);
        }
    }
    Ok(())
}
