//! Rules that look at one instruction after another.

ghost use Rattle.std.specs.Prelude.{◌≡◌, slice_get, IfOk};
ghost use Rattle.ir_rules.specs.Spots.{spots, block_spots, named_by};
ghost use Rattle.ir_rules.specs.Values as values;
ghost use Rattle.ir_model.specs.Shapes as shapes;
ghost use Rattle.ir_check.specs.Instrs.{breaks, breaking_spots, gives_none};

use crate::callees::Callees;
use crate::calls::{call_fits, returns};
use crate::cases::cases_differ;
use crate::kinds::is_pointer;
use crate::literals::literals_fit;
use crate::operands::types_fit;
use crate::widths::widths_fit;
use ir_model::{Block, Function, Instr, IrType, Op, Place, Rule};
use scev_base::{BlockId, Pred};
use std::alloc::{AllocError, Global};

/// The first instruction of some blocks that breaks the rule.
pub(crate) fn first_breaking(
    alloc: Global,
    rule: Rule,
    callees: &Callees<'_>,
    f: &Function,
) -> Result<Option<Place>, AllocError>
    ensures { IfOk result (λ found. found ≡ slice_get (breaking_spots callees.now f.now rule (spots f.now)) 0) }
{
    for block in f.blocks.as_slice() {
        match first_in_block(alloc, rule, callees, f, block)? {
            Some(place) => return Ok(Some(place)),
            None => {}
        }
    }
    Ok(None)
}

/// The first instruction of a block that breaks the rule.
fn first_in_block(
    alloc: Global,
    rule: Rule,
    callees: &Callees<'_>,
    f: &Function,
    block: &Block,
) -> Result<Option<Place>, AllocError>
    ensures { IfOk result (λ found.
        found ≡ slice_get (breaking_spots callees.now f.now rule (block_spots block.now)) 0) }
{
    for instr in block.instrs.as_slice() {
        if is_breaking(alloc, rule, callees, f, instr)? {
            return Ok(Some(place_of(block.id, instr)));
        }
    }
    Ok(None)
}

/// Whether an instruction breaks the rule; those that look at more than one instruction are never broken here.
fn is_breaking(
    alloc: Global,
    rule: Rule,
    callees: &Callees<'_>,
    f: &Function,
    instr: &Instr,
) -> Result<bool, AllocError>
    ensures { IfOk result (λ broken. broken ≡ breaks callees.now f.now rule instr.now) }
{
    let breaks = match rule {
        Rule::TypeMismatch => !types_fit(f, &instr.op),
        Rule::LiteralOutOfRange => !literals_fit(&instr.op),
        Rule::BadWidth => !widths_fit(&instr.op),
        Rule::VoidValue => is_void_value(instr),
        Rule::DuplicateCase => !cases_differ(alloc, &instr.op)?,
        Rule::PointerPredicate => misuses_pointer(&instr.op),
        Rule::CallMismatch => !call_fits(callees, &instr.op),
        Rule::ReturnType => !returns(&f.ret, &instr.op),
        _ => false,
    };
    Ok(breaks)
}

/// Whether an instruction without a value has a result.
fn is_void_value(instr: &Instr) -> bool
    ensures { result ≡ values.is_void_value instr.now }
{
    instr.result.is_some() && gives_none(&instr.op)
}

/// Whether an operation gives no value.
fn gives_none(op: &Op) -> bool
    ensures { result ≡ gives_none op.now }
{
    match op {
        Op::Binary { kind, .. }
        | Op::Phi { kind, .. }
        | Op::Freeze { kind, .. }
        | Op::Load { kind, .. } => is_void(kind),
        Op::Cast { to, .. } => is_void(to),
        Op::Select { yes, .. } => is_void(&yes.kind),
        Op::Call { ret, .. } => is_void(ret),
        Op::Icmp { .. } | Op::Alloca { .. } | Op::Gep { .. } => false,
        _ => true,
    }
}

/// Whether a type is `void`.
fn is_void(kind: &IrType) -> bool
    ensures { result ≡ shapes.is_void kind.now }
{
    matches!(kind, IrType::Void)
}

/// Whether an operation compares pointers by more than equality, or freezes one.
fn misuses_pointer(op: &Op) -> bool
    ensures { result ≡ values.misuses_pointer op.now }
{
    match op {
        Op::Icmp { pred, kind, .. } => is_pointer(kind) && !matches!(pred, Pred::Eq | Pred::Ne),
        Op::Freeze { kind, .. } => is_pointer(kind),
        _ => false,
    }
}

/// An instruction's own place: its result, or its block where it has none.
pub(crate) fn place_of(block: BlockId, instr: &Instr) -> Place
    ensures { result ≡ named_by block.0 instr.now.result }
{
    match instr.result {
        Some(v) => Place::Value(v),
        None => Place::BlockAt(block),
    }
}
