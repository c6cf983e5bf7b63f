//! Marked blocks in text order.

ghost use Rattle.std.specs.Prelude.{◌≡◌, ◌≢◌, ◌<◌, ℕ, Some, All, AllPairs, IfOk, length};
ghost use Rattle.ir_model.specs.declared.function.Block.{Block as AnyBlock};
ghost use Rattle.ir_model.specs.Shapes.{block_of, defined_blocks, entry};
ghost use Rattle.ir_model.specs.Walks.{Edge};
ghost use Rattle.flow_graph.specs.Graph.{IsMarked};
ghost use Rattle.natural_loops.specs.Sides.{AreInTextOrder};

use bit_rows::BitRow;
use ir_model::Block;
use scev_base::BlockId;
use sqlite_items::Items;
use ssa_check::Checked;
use std::alloc::{AllocError, Global};

/// The blocks of a function in text order: each has a label, no two have one number, and nothing leads to the first.
pub(crate) fn text_blocks<'c>(c: &'c Checked) -> &'c [Block]
    ensures value { result.now ≡ c.now.function.blocks }
    ensures labels { All (λ block. block.id.0 < length c.now.function.labels) result.now }
    ensures once { AllPairs (λ a b. a ≢ b) (defined_blocks c.now.function) }
    ensures first { (a : ℕ) → Edge c.now.function a (entry c.now.function.blocks) → ⊥ }
{
    let _ = c.flow();
    c.function().blocks.as_slice()
}

/// The marked blocks of a function in text order, each once. Each mark is of a block.
pub(crate) fn listed(
    alloc: Global,
    c: &Checked,
    marks: &BitRow,
) -> Result<Items<BlockId>, AllocError>
    requires { (b : ℕ) → IsMarked marks.now b → (block : AnyBlock) × (block_of c.now.function b ≡ Some block) }
    ensures { IfOk result (λ found. AreInTextOrder c.now.function (IsMarked marks.now) found) }
{
    let mut found = Items::new(alloc);
    for block in text_blocks(c) {
        if marks.get(block.id.0 as usize) {
            found.push(block.id)?;
        }
    }
    Ok(found)
}
