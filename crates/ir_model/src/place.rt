//! What a function says of one value and of one block.

ghost use Rattle.std.specs.Prelude.{◌≡◌, ◌<◌, ◌==◌, Some, length, slice_get, find, position};
ghost use Rattle.std.specs.Option.{option_copied};
ghost use Rattle.ir_model.specs.declared.function.ValueInfo.{ValueInfo};
ghost use Rattle.ir_model.specs.declared.function.Block.{Block};
ghost use Rattle.ir_model.specs.declared.function.Instr.{Instr};
ghost use Rattle.ir_model.specs.Defined.{is_value};
ghost use Rattle.ir_model.specs.Places.{is_param, given_at, place_of};
ghost use Rattle.ir_model.specs.Shapes.{entry, block_of};

use crate::function::{Block, Function, Instr, Param};
use crate::types::IrType;
use scev_base::{BlockId, ValueId};

impl Function {
    /// Where a value is first defined: the block, and the index of the instruction in it, from 0. A parameter has no
    /// place, and neither has a value that isn't defined.
    ///
    /// Time linear in the function. No memory is taken.
    pub fn place(&self, v: ValueId) -> Option<(BlockId, u64)>
        ensures { result ≡ place_of self.now v.0 }
    {
        if is_parameter(self.params.as_slice(), v) {
            return None;
        }
        given_among(self.blocks.as_slice(), v)
    }

    /// The type of a value, as the table of values has it: that of its first definition in text order, `Void` where
    /// there is none.
    pub fn kind_of(&self, v: ValueId) -> &IrType
        requires stands { v.0 < length self.now.values }
        ensures { (info : ValueInfo) → slice_get self.now.values v.0 ≡ Some info → result.now ≡ info.kind }
    {
        &self.values.as_slice()[v.0 as usize].kind
    }

    /// The number of the first block in text order, in which each run begins; 0 where there is no block.
    pub fn entry(&self) -> BlockId
        ensures { result.0 ≡ entry self.now.blocks }
    {
        match self.blocks.as_slice().first() {
            Some(block) => block.id,
            None => BlockId(0),
        }
    }

    /// The first block with this number, in text order.
    ///
    /// Time linear in the number of blocks. No memory is taken.
    pub fn block(&self, b: BlockId) -> &Block
        requires stands { (block : Block) × (block_of self.now b.0 ≡ Some block) }
        ensures { block_of self.now b.0 ≡ Some result.now }
    {
        first_block(self.blocks.as_slice(), b).unwrap()
    }
}

/// Whether a value is a parameter.
fn is_parameter(params: &[Param], v: ValueId) -> bool
    ensures { result ≡ is_param params.now v.0 }
{
    params.iter().any(|param| param.value.0 == v.0)
}

/// The first instruction of some blocks that gives the value.
fn given_among(blocks: &[Block], v: ValueId) -> Option<(BlockId, u64)>
    ensures { result ≡ given_at blocks.now v.0 }
{
    for block in blocks {
        match given_in(block.instrs.as_slice(), v) {
            Some(index) => return Some((block.id, index)),
            None => {}
        }
    }
    None
}

/// The first one of some blocks with this number.
fn first_block(blocks: &[Block], b: BlockId) -> Option<&Block>
    ensures { option_copied result ≡ find (λ (block : Block). block.id.0 == b.0) blocks.now }
{
    for block in blocks {
        if block.id.0 == b.0 {
            return Some(block);
        }
    }
    None
}

/// The index of the first instruction of a list that gives the value.
#[tactic(auto, using(crate::proofs::FirstPlaces::position_cons))]
fn given_in(instrs: &[Instr], v: ValueId) -> Option<u64>
    ensures { result ≡ position (λ (instr : Instr). is_value instr.result v.0) instrs.now }
{
    for (index, instr) in instrs.iter().enumerate() {
        if gives(instr, v) {
            return Some(index as u64);
        }
    }
    None
}

/// Whether an instruction gives the value.
fn gives(instr: &Instr, v: ValueId) -> bool
    ensures { result ≡ is_value instr.now.result v.0 }
{
    match instr.result {
        Some(result) => result.0 == v.0,
        None => false,
    }
}
