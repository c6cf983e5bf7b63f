//! Widths of types.

ghost use Rattle.std.specs.Prelude.{◌≡◌, slice_get};
ghost use Rattle.std.specs.List.{list_all};
ghost use Rattle.ir_rules.specs.Types as types;

use crate::kinds::{is_int, width_of};
use ir_model::{Case, CastOp, IrType, Op, Param, Place, TypedOperand};

/// Whether an operation's widths are those that its places allow.
pub(crate) fn widths_fit(op: &Op) -> bool
    ensures { result ≡ types.widths_fit op.now }
{
    match op {
        Op::Binary { kind, .. } | Op::Icmp { kind, .. } | Op::Phi { kind, .. } => is_wide(kind),
        Op::Freeze { kind, .. } | Op::Alloca { kind } => is_wide(kind),
        Op::Cast { op, from, to, .. } => is_wide(from) && is_wide(to) && converts(*op, from, to),
        Op::Select { yes, no, .. } => is_wide(&yes.kind) && is_wide(&no.kind),
        Op::Load { kind, .. } | Op::Store { kind, .. } => is_whole(kind),
        Op::Gep { kind, indices, .. } => is_wide(kind) && all_wide(indices.as_slice()),
        Op::Call { ret, args, .. } => is_wide(ret) && all_wide(args.as_slice()),
        Op::Switch { kind, cases, .. } => is_wide(kind) && cases_wide(cases.as_slice()),
        Op::Ret { value: Some(typed) } => is_wide(&typed.kind),
        Op::Jump { .. } | Op::Branch { .. } | Op::Ret { value: None } | Op::Unreachable => true,
    }
}

/// Whether the types of operands have widths that are allowed.
fn all_wide(operands: &[TypedOperand]) -> bool
    ensures { result ≡ list_all (λ typed. types.is_wide typed.kind) operands.now }
{
    operands.iter().all(|typed| is_wide(&typed.kind))
}

/// Whether the types of cases do.
fn cases_wide(cases: &[Case]) -> bool
    ensures { result ≡ list_all (λ one. types.is_wide one.kind) cases.now }
{
    cases.iter().all(|case| is_wide(&case.kind))
}

/// Whether a conversion leads from an integer to a strictly wider or narrower one.
fn converts(op: CastOp, from: &IrType, to: &IrType) -> bool
    ensures { result ≡ types.converts op from.now to.now }
{
    match op {
        CastOp::Zext | CastOp::Sext => is_int(to) && width_of(from) < width_of(to),
        CastOp::Trunc => is_int(to) && width_of(to) < width_of(from),
    }
}

/// Whether an integer or the elements of an array have 1 to 64 bits.
pub(crate) fn is_wide(kind: &IrType) -> bool
    ensures { result ≡ types.is_wide kind.now }
{
    match kind {
        IrType::Int(width) | IrType::Array(_, width) => 1 <= *width && *width <= 64,
        IrType::Void | IrType::Ptr => true,
    }
}

/// Whether a type has 8, 16, 32 or 64 bits, as what is loaded and stored.
pub(crate) fn is_whole(kind: &IrType) -> bool
    ensures { result ≡ types.is_whole kind.now }
{
    let width = width_of(kind);
    width == 8 || width == 16 || width == 32 || width == 64
}

/// The first parameter whose width isn't from 1 to 64.
pub(crate) fn bad_param(params: &[Param]) -> Option<Place>
    ensures { result ≡ slice_get (types.bad_params params.now) 0 }
{
    for param in params {
        if !is_wide(&param.kind) {
            return Some(Place::Value(param.value));
        }
    }
    None
}
