//! Which names a function defines.

ghost use Rattle.std.specs.Prelude.{◌≡◌, ◌<◌, false, [], ◌∷◌, length, slice_index_or, IfOk};
ghost use Rattle.std.specs.List.{flat_map};
ghost use Rattle.ir_model.specs.declared.function.Param.{Param};
ghost use Rattle.ir_model.specs.declared.function.Instr.{Instr};
ghost use Rattle.ir_model.specs.WellMade.{HasIds};
ghost use Rattle.ir_rules.specs.Names as names;
ghost use Rattle.ir_check.specs.Definitions.{with_place, first_again, with_places, HaveRoom, AreNames};

use bit_rows::BitRow;
use ir_model::{Block, Function, Instr, Param, Place};
use scev_base::{BlockId, ValueId};
use std::alloc::{AllocError, Global};

/// The values and the blocks that are defined, by their ids.
#[derive(Drop)]
pub(crate) struct Defined {
    values: BitRow,
    blocks: BitRow,
}

impl Defined {
    /// Whether a value is defined.
    pub(crate) fn has_value(&self, v: ValueId) -> bool
        ensures { result ≡ slice_index_or self.now.values v.0 false }
    {
        self.values.get(v.0 as usize)
    }

    /// Whether a block is defined.
    pub(crate) fn has_block(&self, b: BlockId) -> bool
        ensures { result ≡ slice_index_or self.now.blocks b.0 false }
    {
        self.blocks.get(b.0 as usize)
    }

    /// Defines a value. Gives its place where it was defined before.
    fn define_value(&mut self, v: ValueId) -> Option<Place>
        requires { v.0 < length self.old.values }
        ensures again { result ≡ first_again self.old (Place.Value v ∷ []) }
        ensures all { self.new ≡ with_place self.old (Place.Value v) }
    {
        let again = self.values.get(v.0 as usize);
        self.values.set(v.0 as usize);
        if again { Some(Place::Value(v)) } else { None }
    }

    /// Defines a block. Gives its place where it was defined before.
    fn define_block(&mut self, b: BlockId) -> Option<Place>
        requires { b.0 < length self.old.blocks }
        ensures again { result ≡ first_again self.old (Place.BlockAt b ∷ []) }
        ensures all { self.new ≡ with_place self.old (Place.BlockAt b) }
    {
        let again = self.blocks.get(b.0 as usize);
        self.blocks.set(b.0 as usize);
        if again { Some(Place::BlockAt(b)) } else { None }
    }
}

/// What a function defines, or the first place at which a name is defined again.
#[derive(Drop)]
pub(crate) enum Names {
    Once(Defined),
    Again(Place),
}

/// The names that a function defines, each once.
pub(crate) fn definitions(alloc: Global, f: &Function) -> Result<Names, AllocError>
    requires ids { HasIds f.now }
    ensures { IfOk result (λ names. AreNames f.now names) }
{
    let mut defined = Defined {
        values: BitRow::new(alloc, f.values.len())?,
        blocks: BitRow::new(alloc, f.labels.len())?,
    };
    match define_all(&mut defined, f) {
        Some(place) => Ok(Names::Again(place)),
        None => Ok(Names::Once(defined)),
    }
}

/// Defines what a function defines, up to the first that is defined before.
fn define_all(defined: &mut Defined, f: &Function) -> Option<Place>
    requires { HaveRoom defined.old (names.definitions f.now) }
    ensures again { result ≡ first_again defined.old (names.definitions f.now) }
    ensures all { result ≡ None → defined.new ≡ with_places defined.old (names.definitions f.now) }
{
    match define_params(defined, f.params.as_slice()) {
        Some(place) => Some(place),
        None => define_blocks(defined, f.blocks.as_slice()),
    }
}

/// Defines parameters, up to the first that is defined before.
fn define_params(defined: &mut Defined, params: &[Param]) -> Option<Place>
    requires { HaveRoom defined.old (flat_map (λ (p : Param). Place.Value p.value ∷ []) params.now) }
    ensures again { result ≡ first_again defined.old (flat_map (λ (p : Param). Place.Value p.value ∷ []) params.now) }
    ensures all { result ≡ None
        → defined.new ≡ with_places defined.old (flat_map (λ (p : Param). Place.Value p.value ∷ []) params.now) }
{
    for param in params {
        match defined.define_value(param.value) {
            Some(place) => return Some(place),
            None => {}
        }
    }
    None
}

/// Defines blocks and the results of their instructions, up to the first that is defined before.
fn define_blocks(defined: &mut Defined, blocks: &[Block]) -> Option<Place>
    requires { HaveRoom defined.old (flat_map names.block_definitions blocks.now) }
    ensures again { result ≡ first_again defined.old (flat_map names.block_definitions blocks.now) }
    ensures all { result ≡ None
        → defined.new ≡ with_places defined.old (flat_map names.block_definitions blocks.now) }
{
    for block in blocks {
        match define_block(defined, block) {
            Some(place) => return Some(place),
            None => {}
        }
    }
    None
}

/// Defines a block and the results of its instructions, up to the first that is defined before.
fn define_block(defined: &mut Defined, block: &Block) -> Option<Place>
    requires { HaveRoom defined.old (names.block_definitions block.now) }
    ensures again { result ≡ first_again defined.old (names.block_definitions block.now) }
    ensures all { result ≡ None → defined.new ≡ with_places defined.old (names.block_definitions block.now) }
{
    match defined.define_block(block.id) {
        Some(place) => Some(place),
        None => define_results(defined, block.instrs.as_slice()),
    }
}

/// Defines the results of instructions, up to the first that is defined before.
fn define_results(defined: &mut Defined, instrs: &[Instr]) -> Option<Place>
    requires { HaveRoom defined.old (flat_map (λ (instr : Instr). names.result_place instr.result) instrs.now) }
    ensures again { result
        ≡ first_again defined.old (flat_map (λ (instr : Instr). names.result_place instr.result) instrs.now) }
    ensures all { result ≡ None → defined.new
        ≡ with_places defined.old (flat_map (λ (instr : Instr). names.result_place instr.result) instrs.now) }
{
    for instr in instrs {
        match define_given(defined, instr.result) {
            Some(place) => return Some(place),
            None => {}
        }
    }
    None
}

/// Defines the result of an instruction, where it has one.
fn define_given(defined: &mut Defined, given: Option<ValueId>) -> Option<Place>
    requires { HaveRoom defined.old (names.result_place given) }
    ensures again { result ≡ first_again defined.old (names.result_place given) }
    ensures all { defined.new ≡ with_places defined.old (names.result_place given) }
{
    match given {
        Some(v) => defined.define_value(v),
        None => None,
    }
}
