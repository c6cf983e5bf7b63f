//! Operands at the types of their places.

ghost use Rattle.std.specs.Prelude.{◌≡◌};
ghost use Rattle.std.specs.List.{list_all};
ghost use Rattle.ir_rules.specs.Types as types;

use crate::kinds::{dimensions, is_int, is_pointer, same_type};
use ir_model::{Case, Function, IrType, Op, Operand, PhiEntry, TypedOperand};

/// Whether an operation's types fit one another, and each operand the type of its place.
pub(crate) fn types_fit(f: &Function, op: &Op) -> bool
    ensures { result ≡ types.types_fit f.now op.now }
{
    types_agree(op) && operands_fit(f, op)
}

/// Whether an operation's types fit one another.
fn types_agree(op: &Op) -> bool
    ensures { result ≡ types.types_agree op.now }
{
    match op {
        Op::Binary { kind, .. } => is_int(kind),
        Op::Cast { from, .. } => is_int(from),
        Op::Select { yes, no, .. } => same_type(&yes.kind, &no.kind),
        Op::Gep { kind, indices, .. } => {
            let indices = indices.as_slice();
            all_int(indices) && (indices.is_empty() || indices.len() - 1 <= dimensions(kind))
        }
        Op::Switch { kind, cases, .. } => is_int(kind) && cases_have(kind, cases.as_slice()),
        _ => true,
    }
}

/// Whether operands are integers.
fn all_int(operands: &[TypedOperand]) -> bool
    ensures { result ≡ list_all (λ typed. types.is_int typed.kind) operands.now }
{
    operands.iter().all(|typed| is_int(&typed.kind))
}

/// Whether cases have a type.
fn cases_have(kind: &IrType, cases: &[Case]) -> bool
    ensures { result ≡ list_all (λ one. types.same_type kind.now one.kind) cases.now }
{
    cases.iter().all(|case| same_type(kind, &case.kind))
}

/// Whether each operand of an operation fits the type of its place.
fn operands_fit(f: &Function, op: &Op) -> bool
    ensures { result ≡ types.operands_fit f.now (types.wanted op.now) }
{
    match op {
        Op::Binary {
            kind,
            left,
            right,
            ..
        }
        | Op::Icmp {
            kind,
            left,
            right,
            ..
        } => { fits(f, kind, left) && fits(f, kind, right) }
        Op::Cast { from, value, .. } => fits(f, from, value),
        Op::Select { cond, yes, no } => {
            fits(f, &IrType::Int(1), cond)
                && fits(f, &yes.kind, &yes.value)
                && fits(f, &no.kind, &no.value)
        }
        Op::Phi { kind, entries } => entries_fit(f, kind, entries.as_slice()),
        Op::Freeze { kind, value } => fits(f, kind, value),
        Op::Load { from, .. } => fits(f, &IrType::Ptr, from),
        Op::Store { kind, value, to } => fits(f, kind, value) && fits(f, &IrType::Ptr, to),
        Op::Gep { base, indices, .. } => fits(f, &IrType::Ptr, base)
            && all_fit(f, indices.as_slice()),
        Op::Call { args, .. } => all_fit(f, args.as_slice()),
        Op::Branch { cond, .. } => fits(f, &IrType::Int(1), cond),
        Op::Switch {
            kind,
            value,
            cases,
            ..
        } => fits(f, kind, value) && cases_fit(cases.as_slice()),
        Op::Ret { value: Some(typed) } => fits(f, &typed.kind, &typed.value),
        Op::Alloca { .. } | Op::Jump { .. } | Op::Ret { value: None } | Op::Unreachable => true,
    }
}

/// Whether operands fit their types.
fn all_fit(f: &Function, operands: &[TypedOperand]) -> bool
    ensures { result ≡ types.operands_fit f.now operands.now }
{
    operands
        .iter()
        .all(|typed| fits(f, &typed.kind, &typed.value))
}

/// Whether the values of entries fit a type.
fn entries_fit(f: &Function, kind: &IrType, entries: &[PhiEntry]) -> bool
    ensures { result ≡ list_all (λ entry. types.fits f.now kind.now entry.value) entries.now }
{
    entries.iter().all(|entry| fits(f, kind, &entry.value))
}

/// Whether the numbers of cases fit their types, as integers do.
fn cases_fit(cases: &[Case]) -> bool
    ensures { result ≡ list_all (λ one. types.is_int one.kind) cases.now }
{
    cases.iter().all(|case| is_int(&case.kind))
}

/// Whether an operand may stand at a type.
fn fits(f: &Function, kind: &IrType, value: &Operand) -> bool
    ensures { result ≡ types.fits f.now kind.now value.now }
{
    match value {
        Operand::Reg(v) => match f.values.get(v.0 as usize) {
            Some(info) => same_type(kind, &info.kind),
            None => same_type(kind, &IrType::Void),
        },
        Operand::Num(_) => is_int(kind),
        Operand::Null | Operand::Global(_) => is_pointer(kind),
        Operand::Undef | Operand::Poison => true,
    }
}
