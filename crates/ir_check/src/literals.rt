//! Numerals in the range of their types.

ghost use Rattle.std.specs.Prelude.{◌≡◌, ◌<◌, ◌≤◌, ◌-◌, ◌^◌, pos, ◌≤ℤ◌};
ghost use Rattle.std.specs.List.{list_all};
ghost use Rattle.ir_rules.specs.Types as types;

use ir_model::{Case, IrType, Op, Operand, PhiEntry, TypedOperand};

/// Whether each numeral of an operation is in the range of its type.
pub(crate) fn literals_fit(op: &Op) -> bool
    ensures { result ≡ types.literals_fit op.now }
{
    match op {
        Op::Binary {
            kind,
            left,
            right,
            ..
        }
        | Op::Icmp {
            kind,
            left,
            right,
            ..
        } => { literal_fits(kind, left) && literal_fits(kind, right) }
        Op::Cast { from, value, .. } => literal_fits(from, value),
        Op::Select { cond, yes, no } => {
            literal_fits(&IrType::Int(1), cond)
                && literal_fits(&yes.kind, &yes.value)
                && literal_fits(&no.kind, &no.value)
        }
        Op::Phi { kind, entries } => entries_fit(kind, entries.as_slice()),
        Op::Freeze { kind, value } | Op::Store { kind, value, .. } => literal_fits(kind, value),
        Op::Gep { indices, .. } => all_fit(indices.as_slice()),
        Op::Call { args, .. } => all_fit(args.as_slice()),
        Op::Branch { cond, .. } => literal_fits(&IrType::Int(1), cond),
        Op::Switch {
            kind,
            value,
            cases,
            ..
        } => literal_fits(kind, value) && cases_fit(cases.as_slice()),
        Op::Ret { value: Some(typed) } => literal_fits(&typed.kind, &typed.value),
        Op::Alloca { .. }
        | Op::Load { .. }
        | Op::Jump { .. }
        | Op::Ret { value: None }
        | Op::Unreachable => true,
    }
}

/// Whether the numerals among operands are in range.
fn all_fit(operands: &[TypedOperand]) -> bool
    ensures { result ≡ types.all_literals_fit operands.now }
{
    operands
        .iter()
        .all(|typed| literal_fits(&typed.kind, &typed.value))
}

/// Whether the numerals among the values of entries are in the range of a type.
fn entries_fit(kind: &IrType, entries: &[PhiEntry]) -> bool
    ensures { result ≡ list_all (λ entry. types.literal_fits kind.now entry.value) entries.now }
{
    entries.iter().all(|entry| literal_fits(kind, &entry.value))
}

/// Whether the numerals of cases are in range.
fn cases_fit(cases: &[Case]) -> bool
    ensures { result ≡ list_all (λ one. types.literal_fits one.kind (types.number one.number)) cases.now }
{
    cases.iter().all(|case| case_fits(case))
}

/// Whether a case's numeral is in range.
fn case_fits(case: &Case) -> bool
    ensures { result ≡ types.literal_fits case.now.kind (types.number case.now.number) }
{
    match case.kind {
        IrType::Int(width) => is_in_range(width, case.number),
        _ => true,
    }
}

/// Whether an operand is in the range of a type, where it is a numeral.
pub(crate) fn literal_fits(kind: &IrType, value: &Operand) -> bool
    ensures { result ≡ types.literal_fits kind.now value.now }
{
    match (kind, value) {
        (IrType::Int(width), Operand::Num(number)) => is_in_range(*width, *number),
        _ => true,
    }
}

/// Whether a number is from -2^(w-1) to 2^w - 1; of no bits, whether it is 0.
fn is_in_range(width: u32, number: i128) -> bool
    ensures { result ≡ types.is_in_range width number }
{
    if width == 0 {
        return number == 0;
    }
    if width > 127 {
        return fits_wide(width, number);
    }
    let half = half(width);
    -half <= number && number - half < half
}

/// 2^(w-1).
fn half(width: u32) -> i128
    requires some { 0 < width }
    requires narrow { width ≤ 127 }
    ensures value { result ≡ pos (2 ^ (width - 1)) }
    ensures bound { result ≤ℤ pos (2 ^ 126) }
{
    1 << (width - 1)
}

/// Whether a number is from -2^(w-1) to 2^w - 1, at 128 bits or more: each number of 128 bits is.
fn fits_wide(width: u32, number: i128) -> bool
    requires { 127 < width }
    ensures { result ≡ types.is_in_range width number }
{
    true
}
