//! Blocks by their numbers, and the phis at their heads.

ghost use Rattle.std.specs.Prelude.{◌≡◌, ◌≢◌, ◌<◌, AllPairs, Contains, IfSome, OnSome, slice_get};
ghost use Rattle.std.specs.Option.{option_copied};
ghost use Rattle.ir_model.specs.declared.function.Block.{Block as AnyBlock};
ghost use Rattle.ir_model.specs.WellMade.{HasIds};
ghost use Rattle.ir_model.specs.Shapes.{block_of as block_of_number, defined_blocks, leading_phis as phis_at_head};

use ir_model::{Block, Function, Instr};
use scev_base::BlockId;
use sqlite_items::at;
use std::alloc::{AllocError, Global};

/// For the number of each block its position in the text; 0 where there is no such block.
pub(crate) fn positions(alloc: Global, f: &Function) -> Result<Vec<usize>, AllocError>
    requires { HasIds f.now }
{
    let mut positions = vec![in alloc; 0usize; f.labels.len()]?;
    for (at, block) in f.blocks.as_slice().iter().enumerate() {
        positions[block.id.0 as usize] = at;
    }
    Ok(positions)
}

/// The block of this number in a function in which no two have one. It is None where there is none. The block is looked
/// for at its position first, and then among all.
pub(crate) fn block_of<'f>(f: &'f Function, positions: &[usize], b: BlockId) -> Option<&'f Block>
    requires { AllPairs (λ x y. x ≢ y) (defined_blocks f.now) }
    ensures { option_copied result ≡ block_of_number f.now b.0 }
{
    let blocks = f.blocks.as_slice();
    match block_at(blocks, positions, b) {
        Some(block) => Some(block),
        None => blocks.iter().find(|block| block.id == b),
    }
}

/// The block of this number where it stands at its position.
fn block_at<'f>(blocks: &'f [Block], positions: &[usize], b: BlockId) -> Option<&'f Block>
    ensures { IfSome (option_copied result) (λ (block : AnyBlock). Contains blocks.now block × (block.id.0 ≡ b.0)) }
{
    let at = positions.get(b.0 as usize)?;
    let block = blocks.get(*at)?;
    if block.id == b { Some(block) } else { None }
}

/// The instruction at a place of a block, from 0. It is None where there is none.
pub(crate) fn instr_of(block: &Block, place: usize) -> Option<&Instr>
    ensures value { option_copied result ≡ slice_get block.now.instrs place }
    ensures within { OnSome result (place < usize.MAX) }
{
    at(block.instrs.as_slice(), place)
}

/// The phis that stand before all other instructions.
pub(crate) fn leading_phis(instrs: &[Instr]) -> &[Instr]
    ensures { result.now ≡ phis_at_head instrs.now }
{
    let count = instrs.iter().take_while(|instr| instr.op.is_phi()).count();
    &instrs[..count]
}
