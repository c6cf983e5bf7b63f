//! Types compared.

ghost use Rattle.std.specs.Prelude.{◌≡◌};
ghost use Rattle.ir_rules.specs.Types as types;
ghost use Rattle.ir_rules.specs.Values as values;

use ir_model::{IrType, TypedOperand};

/// Whether a type is an integer.
pub(crate) fn is_int(kind: &IrType) -> bool
    ensures { result ≡ types.is_int kind.now }
{
    matches!(kind, IrType::Int(_))
}

/// Whether a type is a pointer.
pub(crate) fn is_pointer(kind: &IrType) -> bool
    ensures { result ≡ types.is_pointer kind.now }
{
    matches!(kind, IrType::Ptr)
}

/// Whether two types are one.
pub(crate) fn same_type(kind: &IrType, other: &IrType) -> bool
    ensures { result ≡ types.same_type kind.now other.now }
{
    match (kind, other) {
        (IrType::Void, IrType::Void) | (IrType::Ptr, IrType::Ptr) => true,
        (IrType::Int(width), IrType::Int(bits)) => width == bits,
        (IrType::Array(dims, width), IrType::Array(others, bits)) => {
            dims.as_slice() == others.as_slice() && width == bits
        }
        _ => false,
    }
}

/// The width of an integer, or of the elements of an array; 0 of other types.
pub(crate) fn width_of(kind: &IrType) -> u32
    ensures { result ≡ types.width_of kind.now }
{
    match kind {
        IrType::Int(width) | IrType::Array(_, width) => *width,
        IrType::Void | IrType::Ptr => 0,
    }
}

/// The dimensions of a type: none of what is no array.
pub(crate) fn dimensions(kind: &IrType) -> usize
    ensures { result ≡ types.dimensions kind.now }
{
    match kind {
        IrType::Array(dims, _) => dims.len(),
        _ => 0,
    }
}

/// Whether the types of operands are those of a list, in order.
pub(crate) fn same_types(args: &[TypedOperand], kinds: &[IrType]) -> bool
    ensures { result ≡ values.same_types (values.kinds_of args.now) kinds.now }
{
    if args.len() != kinds.len() {
        return false;
    }
    for (at, arg) in args.iter().enumerate() {
        if !same_type(&arg.kind, &kinds[at]) {
            return false;
        }
    }
    true
}
