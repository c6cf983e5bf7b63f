//! Operands with their ids.

ghost use Rattle.std.specs.Prelude.{IfOk, OnOk};
ghost use Rattle.ir_model.specs.Sites.{operand_sites, typed_sites, entry_sites};
ghost use Rattle.ir_text.specs.Sites.{bare_operand, bare_typed, bare_entry, bare_case};
ghost use Rattle.ir_names.specs.Parts.{case_sites, returned_sites, bare_returned};
ghost use Rattle.ir_names.specs.Renumbered.{Renumbers};

use crate::seen::Seen;
use crate::spoken::Spoken;
use ir_model::{Case, Operand, PhiEntry, TypedOperand};
use std::alloc::AllocError;

/// An operand with the id of its value or its global.
pub fn operand<'a>(
    spoken: &Spoken<'a, '_>,
    seen: &mut Seen<'a>,
    operand: Operand,
) -> Result<Operand, AllocError>
    ensures { IfOk result (Renumbers operand_sites bare_operand spoken.now seen.old seen.new operand) }
{
    match operand {
        Operand::Reg(place) => {
            let id = seen.uses_value(spoken, place)?;
            Ok(Operand::Reg(id))
        }
        Operand::Global(place) => {
            let id = seen.uses_global(spoken, place)?;
            Ok(Operand::Global(id))
        }
        other => Ok(other),
    }
}

/// An operand that has a type.
pub fn typed<'a>(
    spoken: &Spoken<'a, '_>,
    seen: &mut Seen<'a>,
    mut typed: TypedOperand,
) -> Result<TypedOperand, AllocError>
    ensures { IfOk result (Renumbers typed_sites bare_typed spoken.now seen.old seen.new typed) }
{
    typed.value = operand(spoken, seen, typed.value)?;
    Ok(typed)
}

/// Gives an operand that has a type the id of its value or its global.
pub fn typed_in<'a>(
    spoken: &Spoken<'a, '_>,
    seen: &mut Seen<'a>,
    typed: &mut TypedOperand,
) -> Result<(), AllocError>
    ensures { OnOk result (Renumbers typed_sites bare_typed spoken.now seen.old seen.new typed.old typed.new) }
{
    typed.value = operand(spoken, seen, typed.value)?;
    Ok(())
}

/// Gives what a function returns, if anything, its id.
pub fn returned<'a>(
    spoken: &Spoken<'a, '_>,
    seen: &mut Seen<'a>,
    value: &mut Option<TypedOperand>,
) -> Result<(), AllocError>
    ensures { OnOk result (Renumbers returned_sites bare_returned spoken.now seen.old seen.new value.old value.new) }
{
    match value {
        None => Ok(()),
        Some(typed) => typed_in(spoken, seen, typed),
    }
}

/// An entry of a phi: the value, then the block.
pub fn entry<'a>(
    spoken: &Spoken<'a, '_>,
    seen: &mut Seen<'a>,
    entry: PhiEntry,
) -> Result<PhiEntry, AllocError>
    ensures { IfOk result (Renumbers entry_sites bare_entry spoken.now seen.old seen.new entry) }
{
    let value = operand(spoken, seen, entry.value)?;
    let from = seen.uses_block(spoken, entry.from)?;
    Ok(PhiEntry { value, from })
}

/// A case of a switch.
pub fn case<'a>(
    spoken: &Spoken<'a, '_>,
    seen: &mut Seen<'a>,
    mut case: Case,
) -> Result<Case, AllocError>
    ensures { IfOk result (Renumbers case_sites bare_case spoken.now seen.old seen.new case) }
{
    case.to = seen.uses_block(spoken, case.to)?;
    Ok(case)
}
