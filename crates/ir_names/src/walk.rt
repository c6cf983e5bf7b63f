//! Parameters and blocks with their ids, in text order.

ghost use Rattle.std.specs.Prelude.{map, IfOk, OnOk};
ghost use Rattle.std.specs.List.{flat_map};
ghost use Rattle.ir_model.specs.Sites.{result_sites, instr_sites, block_sites};
ghost use Rattle.ir_text.specs.Sites.{bare_param, bare_result, bare_instr, bare_block};
ghost use Rattle.ir_names.specs.Parts.{param_sites};
ghost use Rattle.ir_names.specs.Renumbered.{Renumbers};

use crate::lists::taken_reversed;
use crate::ops::op;
use crate::seen::Seen;
use crate::spoken::Spoken;
use ir_model::{Block, Instr, Param};
use scev_base::ValueId;
use sqlite_items::Items;
use std::alloc::{AllocError, Global};

/// Gives the parameters of a function their ids.
pub fn params<'a>(
    alloc: Global,
    spoken: &Spoken<'a, '_>,
    seen: &mut Seen<'a>,
    params: &mut Items<Param>,
) -> Result<(), AllocError>
    ensures { OnOk result (Renumbers (flat_map param_sites) (map bare_param)
        spoken.now seen.old seen.new params.old params.new) }
{
    let mut rest = taken_reversed(alloc, params)?;
    while let Some(next) = rest.pop() {
        params.push(param(spoken, seen, next)?)?;
    }
    Ok(())
}

/// Gives the blocks of a function, and all that stands in them, their ids.
pub fn blocks<'a>(
    alloc: Global,
    spoken: &Spoken<'a, '_>,
    seen: &mut Seen<'a>,
    blocks: &mut Items<Block>,
) -> Result<(), AllocError>
    ensures { OnOk result (Renumbers (flat_map block_sites) (map bare_block)
        spoken.now seen.old seen.new blocks.old blocks.new) }
{
    let mut rest = taken_reversed(alloc, blocks)?;
    while let Some(next) = rest.pop() {
        blocks.push(block(alloc, spoken, seen, next)?)?;
    }
    Ok(())
}

fn param<'a>(
    spoken: &Spoken<'a, '_>,
    seen: &mut Seen<'a>,
    mut param: Param,
) -> Result<Param, AllocError>
    ensures { IfOk result (Renumbers param_sites bare_param spoken.now seen.old seen.new param) }
{
    param.value = seen.defines_value(spoken, param.value)?;
    Ok(param)
}

// The label, then the instructions.
fn block<'a>(
    alloc: Global,
    spoken: &Spoken<'a, '_>,
    seen: &mut Seen<'a>,
    mut block: Block,
) -> Result<Block, AllocError>
    ensures { IfOk result (Renumbers block_sites bare_block spoken.now seen.old seen.new block) }
{
    block.id = seen.defines_block(spoken, block.id)?;
    instrs(alloc, spoken, seen, &mut block.instrs)?;
    Ok(block)
}

fn instrs<'a>(
    alloc: Global,
    spoken: &Spoken<'a, '_>,
    seen: &mut Seen<'a>,
    instrs: &mut Items<Instr>,
) -> Result<(), AllocError>
    ensures { OnOk result (Renumbers (flat_map instr_sites) (map bare_instr)
        spoken.now seen.old seen.new instrs.old instrs.new) }
{
    let mut rest = taken_reversed(alloc, instrs)?;
    while let Some(next) = rest.pop() {
        instrs.push(instr(alloc, spoken, seen, next)?)?;
    }
    Ok(())
}

// The result, then the operands.
fn instr<'a>(
    alloc: Global,
    spoken: &Spoken<'a, '_>,
    seen: &mut Seen<'a>,
    mut instr: Instr,
) -> Result<Instr, AllocError>
    ensures { IfOk result (Renumbers instr_sites bare_instr spoken.now seen.old seen.new instr) }
{
    instr.result = given_value(spoken, seen, instr.result)?;
    op(alloc, spoken, seen, &mut instr.op)?;
    Ok(instr)
}

// The register that gets a result, where there is one.
fn given_value<'a>(
    spoken: &Spoken<'a, '_>,
    seen: &mut Seen<'a>,
    given: Option<ValueId>,
) -> Result<Option<ValueId>, AllocError>
    ensures { IfOk result (Renumbers result_sites bare_result spoken.now seen.old seen.new given) }
{
    match given {
        None => Ok(None),
        Some(place) => {
            let id = seen.defines_value(spoken, place)?;
            Ok(Some(id))
        }
    }
}
