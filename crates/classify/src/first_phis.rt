//! Whether the phis of a block come first.

ghost use Rattle.std.specs.Prelude.{◌≡◌, ◌↔◌, IsTrue, IfOk};
ghost use Rattle.ir_model.specs.Shapes.{leading_phis};
ghost use Rattle.classify.specs.Recurrence.{phis};
ghost use Rattle.classify.specs.Definitions.{TellFirst};

use ir_model::{Block, Instr};
use sqlite_items::Items;
use std::alloc::{AllocError, Global};

/// For each block, whether its phis come first.
pub(crate) fn tell_first(alloc: Global, blocks: &[Block]) -> Result<Items<bool>, AllocError>
    ensures { IfOk result (λ first. TellFirst blocks.now first) }
{
    let mut first = Vec::with_capacity(alloc, blocks.len())?;
    for block in blocks {
        first.push(phis_come_first(block.instrs.as_slice()))?;
    }
    Ok(Items::from_vec(first))
}

/// Whether no phi stands behind another instruction.
fn phis_come_first(instrs: &[Instr]) -> bool
    ensures { IsTrue result ↔ (phis instrs.now ≡ leading_phis instrs.now) }
{
    let mut leading = true;
    for instr in instrs {
        let phi = instr.op.is_phi();
        if phi && !leading {
            return false;
        }
        leading = phi;
    }
    true
}
