//! The blocks with an edge back to a block.

ghost use Rattle.std.specs.Prelude.{◌<◌, ◌↔◌, ℕ, length, IfOk};
ghost use Rattle.flow_graph.specs.Graph.{IsMarked};
ghost use Rattle.natural_loops.specs.Backward.{IsBackEdge};
ghost use Rattle.natural_loops.specs.Sides.{AreInTextOrder};

use crate::listed::listed;
use bit_rows::BitRow;
use scev_base::BlockId;
use sqlite_items::Items;
use ssa_check::Checked;
use std::alloc::{AllocError, Global};

/// The reachable blocks with an edge to a block that dominates them, in text order. The block has a label.
pub(crate) fn latches(alloc: Global, c: &Checked, h: BlockId) -> Result<Items<BlockId>, AllocError>
    requires { h.0 < length c.now.function.labels }
    ensures { IfOk result (λ found. AreInTextOrder c.now.function (λ b. IsBackEdge c.now.function b h.0) found) }
{
    let marks = latch_marks(alloc, c, h)?;
    listed(alloc, c, &marks)
}

/// Marks of these blocks.
fn latch_marks(alloc: Global, c: &Checked, h: BlockId) -> Result<BitRow, AllocError>
    requires { h.0 < length c.now.function.labels }
    ensures { IfOk result (λ marks. (b : ℕ) → IsMarked marks b ↔ IsBackEdge c.now.function b h.0) }
{
    let mut marks = BitRow::new(alloc, c.function().labels.len())?;
    let flow = c.flow();
    for from in flow.preds(h) {
        if flow.reachable(*from) && c.dominates(h, *from) {
            marks.set(from.0 as usize);
        }
    }
    Ok(marks)
}
