//! Calls and what a function returns.

ghost use Rattle.std.specs.Prelude.{◌≡◌, [], ◌∷◌, map};
ghost use Rattle.std.specs.List.{list_any};
ghost use Rattle.std.specs.Str.{bytes_eq};
ghost use Rattle.ir_model.specs.Callees.{min_max_front, all_min_max};
ghost use Rattle.ir_rules.specs.Values as values;

use crate::callees::Callees;
use crate::kinds::{same_type, same_types};
use ir_model::{IrType, MinMax, Op, TypedOperand};
use itoa::Buffer;

/// Whether a call is of a function of the module and has its types; each other operation fits.
pub(crate) fn call_fits(callees: &Callees<'_>, op: &Op) -> bool
    ensures { result ≡ values.call_fits callees.now op.now }
{
    match op {
        Op::Call { ret, callee, args } => {
            let args = args.as_slice();
            let alone = MinMax::named(callee.as_slice()).is_some();
            if alone && !(is_min_max_of(ret, callee.as_slice()) && are_both(args, ret)) {
                return false;
            }
            match callees.function(callee.as_slice()) {
                Some(signature) => {
                    same_type(ret, &signature.ret) && same_types(args, signature.params.as_slice())
                }
                None => alone,
            }
        }
        _ => true,
    }
}

/// Whether there are two arguments, both of the type.
fn are_both(args: &[TypedOperand], kind: &IrType) -> bool
    ensures { result ≡ values.same_types (values.kinds_of args.now) (kind.now ∷ kind.now ∷ []) }
{
    match args {
        [first, second] => same_type(&first.kind, kind) && same_type(&second.kind, kind),
        _ => false,
    }
}

/// Whether a callee is a minimum or a maximum of two operands of the type.
fn is_min_max_of(kind: &IrType, callee: &[u8]) -> bool
    ensures { result ≡ values.is_min_max_of kind.now callee.now }
{
    let IrType::Int(width) = kind else {
        return false;
    };
    let mut buffer = Buffer::new();
    let digits = buffer.format(*width).as_bytes();
    match callee.strip_suffix(digits) {
        Some(front) => is_front(front),
        None => false,
    }
}

/// Whether a text is the name of a minimum or a maximum up to its width.
fn is_front(front: &[u8]) -> bool
    ensures { result ≡ list_any (bytes_eq front.now)
        (map min_max_front all_min_max) }
{
    front == b"llvm.umin.i".as_slice()
        || front == b"llvm.umax.i".as_slice()
        || front == b"llvm.smin.i".as_slice()
        || front == b"llvm.smax.i".as_slice()
}

/// Whether what a `ret` gives is of the function's type; each other operation fits.
pub(crate) fn returns(kind: &IrType, op: &Op) -> bool
    ensures { result ≡ values.returns kind.now op.now }
{
    match op {
        Op::Ret { value: None } => matches!(kind, IrType::Void),
        Op::Ret { value: Some(typed) } => same_type(kind, &typed.kind),
        _ => true,
    }
}
