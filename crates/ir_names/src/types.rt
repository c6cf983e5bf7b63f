//! The types of values, by their first definitions in text order.

ghost use Rattle.std.specs.Prelude.{◌≡◌, None, [], ◌∷◌, length, replicate, slice_get, Some, ◌↔◌, IsTrue, IfOk, OnOk};
ghost use Rattle.ir_model.specs.Defined.{given_type, param_type, instr_type, block_type};
ghost use Rattle.ir_names.specs.Kinds.{AreTypesBy, Notes, only, first_type};

use ir_model::{Block, Instr, IrType, Op, Param};
use scev_base::ValueId;
use sqlite_items::Items;
use std::alloc::{AllocError, Global};

/// The types of so many values, by their numbers. It is None where a value has no definition.
pub fn types(
    alloc: Global,
    count: usize,
    params: &[Param],
    blocks: &[Block],
) -> Result<Items<Option<IrType>>, AllocError>
    ensures length { IfOk result (λ kinds. length kinds ≡ count) }
    ensures kinds { IfOk result (λ kinds. AreTypesBy kinds (first_type params.now blocks.now)) }
{
    let mut kinds = unknown(alloc, count)?;
    note_params(alloc, &mut kinds, params)?;
    note_blocks(alloc, &mut kinds, blocks)?;
    Ok(kinds)
}

/// The type of what an instruction gives, `Void` where it gives nothing.
pub fn given_type(alloc: Global, op: &Op) -> Result<IrType, AllocError>
    ensures { IfOk result (λ kind. kind ≡ given_type op.now) }
{
    match op {
        Op::Binary { kind, .. } => kind.copy(alloc),
        Op::Icmp { .. } => Ok(IrType::Int(1)),
        Op::Cast { to, .. } => to.copy(alloc),
        Op::Select { yes, .. } => yes.kind.copy(alloc),
        Op::Phi { kind, .. } => kind.copy(alloc),
        Op::Freeze { kind, .. } => kind.copy(alloc),
        Op::Alloca { .. } => Ok(IrType::Ptr),
        Op::Load { kind, .. } => kind.copy(alloc),
        Op::Gep { .. } => Ok(IrType::Ptr),
        Op::Call { ret, .. } => ret.copy(alloc),
        _ => Ok(IrType::Void),
    }
}

fn unknown(alloc: Global, count: usize) -> Result<Items<Option<IrType>>, AllocError>
    ensures { IfOk result (λ kinds. kinds ≡ replicate count None) }
{
    let mut kinds = Items::new(alloc);
    for _at in 0..count {
        kinds.push(None)?;
    }
    Ok(kinds)
}

fn note_params(
    alloc: Global,
    kinds: &mut Items<Option<IrType>>,
    params: &[Param],
) -> Result<(), AllocError>
    ensures { OnOk result (Notes kinds.old kinds.new (param_type params.now)) }
{
    for param in params {
        note(kinds, param.value, param.kind.copy(alloc)?);
    }
    Ok(())
}

fn note_blocks(
    alloc: Global,
    kinds: &mut Items<Option<IrType>>,
    blocks: &[Block],
) -> Result<(), AllocError>
    ensures { OnOk result (Notes kinds.old kinds.new (block_type blocks.now)) }
{
    for block in blocks {
        note_instrs(alloc, kinds, block.instrs.as_slice())?;
    }
    Ok(())
}

fn note_instrs(
    alloc: Global,
    kinds: &mut Items<Option<IrType>>,
    instrs: &[Instr],
) -> Result<(), AllocError>
    ensures { OnOk result (Notes kinds.old kinds.new (instr_type instrs.now)) }
{
    for instr in instrs {
        note_instr(alloc, kinds, instr)?;
    }
    Ok(())
}

fn note_instr(
    alloc: Global,
    kinds: &mut Items<Option<IrType>>,
    instr: &Instr,
) -> Result<(), AllocError>
    ensures { OnOk result (Notes kinds.old kinds.new (instr_type (instr.now ∷ []))) }
{
    let Some(value) = instr.result else {
        return Ok(());
    };
    note(kinds, value, given_type(alloc, &instr.op)?);
    Ok(())
}

// Notes the type of a value that has none yet.
fn note(kinds: &mut Items<Option<IrType>>, value: ValueId, kind: IrType)
    ensures { Notes kinds.old kinds.new (only value.0 kind) }
{
    let at = value.0 as usize;
    if is_unknown(kinds.as_slice(), at) {
        kinds.set(at, Some(kind));
    }
}

// Whether the table has a value and no type of it.
fn is_unknown(kinds: &[Option<IrType>], at: usize) -> bool
    ensures { IsTrue result ↔ (slice_get kinds.now at ≡ Some None) }
{
    match kinds.get(at) {
        Some(kind) => kind.is_none(),
        None => false,
    }
}
