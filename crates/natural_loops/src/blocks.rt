//! The blocks of a loop.

ghost use Rattle.std.specs.Prelude.{◌<◌, length, IfOk};
ghost use Rattle.ir_model.specs.Walks.{Reachable};
ghost use Rattle.natural_loops.specs.Backward.{IsBackEdge, IsBackward, IsBody};
ghost use Rattle.natural_loops.specs.Sides.{AreInTextOrder};

use bit_rows::BitRow;
use flow_graph::collect;
use scev_base::BlockId;
use sqlite_items::Items;
use ssa_check::Checked;
use std::alloc::{AllocError, Global};

/// Marks of a reachable block with these latches, and of the blocks that are found from them against the edges, up to
/// that block.
pub(crate) fn blocks_of(
    alloc: Global,
    c: &Checked,
    backward: &[Items<usize>],
    h: BlockId,
    latches: &[BlockId],
) -> Result<BitRow, AllocError>
    requires header { h.0 < length c.now.function.labels }
    requires reachable { Reachable c.now.function h.0 }
    requires backward { IsBackward c.now.function backward.now }
    requires latches { AreInTextOrder c.now.function (λ b. IsBackEdge c.now.function b h.0) latches.now }
    ensures { IfOk result (λ marks. IsBody c.now.function h.0 marks) }
{
    let _ = c;
    let mut marks = BitRow::new(alloc, backward.len())?;
    marks.set(h.0 as usize);
    for latch in latches {
        let at = latch.0 as usize;
        if !marks.get(at) {
            collect(alloc, backward, at, &mut marks)?;
        }
    }
    Ok(marks)
}
