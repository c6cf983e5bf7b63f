//! Where the values of a function are first defined.

ghost use Rattle.std.specs.Prelude.{◌≡◌, ◌<◌, ℕ, Option, All, if◌then◌else◌, length, option_map, position};
ghost use Rattle.std.specs.Prelude.{slice_index_or, IfOk};
ghost use Rattle.scev_base.specs.declared.ids.BlockId.{BlockId};
ghost use Rattle.ir_model.specs.declared.function.Instr.{Instr};
ghost use Rattle.ir_model.specs.Defined.{is_value};
ghost use Rattle.ir_model.specs.Places.{in_block, given_at, is_param};
ghost use Rattle.ir_model.specs.WellMade.{HasIds};
ghost use Rattle.ssa_check.specs.declared.definitions.Definition.TheVariants.{Nowhere, Parameter};
ghost use Rattle.ssa_check.specs.Tables.{at_place, definition_of, AreWithin};

use ir_model::{Block, Function, Instr, Param};
use scev_base::{BlockId, ValueId};
use std::alloc::{AllocError, Global};
use std::marker::Model;

/// Where a value is first defined: nowhere, by a parameter, or by the instruction at an index of a block, from 0.
#[derive(Clone, Copy)]
pub(crate) enum Definition {
    Nowhere,
    Parameter,
    At(BlockId, usize),
}

/// A function, and for each of its values where it is first defined.
#[derive(Drop)]
pub(crate) struct Definitions<'a> {
    f: &'a Function,
    table: Vec<Definition>,
}

impl<'a> Model for Definitions<'a> {
    ghost use Rattle.std.specs.Prelude.{◌≡◌, ℕ, slice_index_or};
    ghost use Rattle.ir_model.specs.declared.function.Function.{Function};
    ghost use Rattle.ssa_check.specs.declared.definitions.Definition.TheVariants.{Nowhere};
    ghost use Rattle.ssa_check.specs.Tables.{definition_of};

    ghost Value = { Function };

    ghost view = { λ d. d.f.now };

    ghost invariant = { λ d. (v : ℕ) → slice_index_or d.table.items v Nowhere ≡ definition_of d.f.now v };
}

impl<'a> Definitions<'a> {
    /// The definitions of a function, in time linear in its size. The error comes only where there is no memory for
    /// the table.
    pub(crate) fn of(alloc: Global, f: &'a Function) -> Result<Definitions<'a>, AllocError>
        requires { HasIds f.now }
        ensures { IfOk result (λ definitions. definitions ≡ f.now) }
    {
        let mut table = vec![in alloc; Definition::Nowhere; f.values.len()]?;
        note_blocks(&mut table, f.blocks.as_slice());
        note_params(&mut table, f.params.as_slice());
        Ok(Definitions { f, table })
    }

    /// Where a value is first defined. Constant time.
    pub(crate) fn get(&self, v: ValueId) -> Definition
        ensures { result ≡ definition_of self.now v.0 }
    {
        match self.table.get(v.0 as usize) {
            Some(found) => *found,
            None => Definition::Nowhere,
        }
    }

    /// The table by itself.
    pub(crate) fn into_table(self) -> Vec<Definition>
        ensures { (v : ℕ) → slice_index_or result.items v Nowhere ≡ definition_of self.entry v }
    {
        self.table
    }

    /// The function itself.
    pub(crate) fn function(&self) -> &'a Function
        ensures { result.now ≡ self.now }
    {
        self.f
    }
}

/// Notes where blocks define values. The first definition counts, so it goes from the last block back.
fn note_blocks(table: &mut Vec<Definition>, blocks: &[Block])
    requires none { (v : ℕ) → slice_index_or table.old.items v Nowhere ≡ Nowhere }
    requires within { All (λ block. AreWithin (length table.old.items) block.instrs) blocks.now }
    ensures size { length table.new.items ≡ length table.old.items }
    ensures noted { (v : ℕ) → slice_index_or table.new.items v Nowhere ≡ at_place (given_at blocks.now v) }
{
    for i in (0..blocks.len()).rev() {
        let block = &blocks[i];
        note_instrs(table, block.id, block.instrs.as_slice());
    }
}

/// Notes where the instructions of a block define values, from the last one back.
fn note_instrs(table: &mut Vec<Definition>, b: BlockId, instrs: &[Instr])
    requires { AreWithin (length table.old.items) instrs.now }
    ensures size { length table.new.items ≡ length table.old.items }
    ensures noted { (v : ℕ) (later : Option (BlockId × ℕ)) → slice_index_or table.old.items v Nowhere ≡ at_place later
        → slice_index_or table.new.items v Nowhere
        ≡ at_place (in_block b (position (λ (instr : Instr). is_value instr.result v) instrs.now) later) }
{
    for i in (0..instrs.len()).rev() {
        let instr = &instrs[i];
        if let Some(v) = instr.result {
            table[v.0 as usize] = Definition::At(b, i);
        }
    }
}

/// Notes which values are parameters.
fn note_params(table: &mut Vec<Definition>, params: &[Param])
    requires { All (λ param. param.value.0 < length table.old.items) params.now }
    ensures { (v : ℕ) → slice_index_or table.new.items v Nowhere
        ≡ (if is_param params.now v then Parameter else slice_index_or table.old.items v Nowhere) }
{
    for param in params {
        table[param.value.0 as usize] = Definition::Parameter;
    }
}
