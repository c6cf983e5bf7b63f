//! Initialisers of globals.

ghost use Rattle.std.specs.Prelude.{◌≡◌, [], ◌∷◌, length};
ghost use Rattle.std.specs.List.{list_all};
ghost use Rattle.ir_model.specs.declared.types.IrType.TheVariants.{Array};
ghost use Rattle.ir_rules.specs.Items as items;
ghost use Rattle.ir_rules.specs.Types as types;
ghost use Rattle.ir_check.specs.Parts.{part_fits, all_fit, part_in_range};

use crate::kinds::{is_int, is_pointer, same_type};
use crate::literals::literal_fits;
use ir_model::{Init, InitPart, IrType, Operand};

/// Whether a literal may stand at a type.
fn literal_stands(kind: &IrType, value: &Operand) -> bool
    ensures { result ≡ items.literal_stands kind.now value.now }
{
    match value {
        Operand::Num(_) => is_int(kind),
        Operand::Null => is_pointer(kind),
        Operand::Undef | Operand::Poison => true,
        Operand::Reg(_) | Operand::Global(_) => false,
    }
}

/// Whether an initialiser is of a type.
#[cycle(fitting)]
pub(crate) fn init_fits(kind: &IrType, init: &Init) -> bool
    ensures { result ≡ items.init_fits kind.now init.now }
{
    match init {
        Init::Literal(value) => literal_stands(kind, value),
        Init::Zero => true,
        Init::Bytes(text) => is_bytes(kind, text.len()),
        Init::List(parts) => parts_fit(kind, parts.as_slice()),
    }
}

/// Whether a type is an array of so many bytes.
fn is_bytes(kind: &IrType, count: usize) -> bool
    ensures { result ≡ types.same_type kind.now (Array (count ∷ []) 8) }
{
    match kind {
        IrType::Array(dims, width) => match dims.as_slice() {
            [dim] => *dim == count as u64 && *width == 8,
            _ => false,
        },
        _ => false,
    }
}

/// Whether parts are as many, and of the type, as an array's.
#[cycle(fitting)]
fn parts_fit(kind: &IrType, parts: &[InitPart]) -> bool
    ensures { result ≡ all_fit (items.parts_type kind.now (length parts.now)) parts.now }
{
    match kind {
        IrType::Array(dims, width) => match dims.as_slice().split_first() {
            Some((first, rest)) => *first == parts.len() as u64 && are_of(rest, *width, parts),
            None => false,
        },
        _ => false,
    }
}

/// Whether each part is of the type of the parts of an array with these dimensions behind its first.
#[cycle(fitting)]
fn are_of(dims: &[u64], width: u32, parts: &[InitPart]) -> bool
    ensures { result ≡ list_all (part_fits (items.part_type dims.now width)) parts.now }
{
    for part in parts {
        if !is_part_type(dims, width, &part.kind) || !init_fits(&part.kind, part.init.get()) {
            return false;
        }
    }
    true
}

/// Whether a type is that of the parts of an array with these dimensions behind its first.
fn is_part_type(dims: &[u64], width: u32, part: &IrType) -> bool
    ensures { result ≡ types.same_type (items.part_type dims.now width) part.now }
{
    match part {
        IrType::Int(bits) => dims.is_empty() && width == *bits,
        IrType::Array(others, bits) => !dims.is_empty()
            && dims == others.as_slice()
            && width == *bits,
        _ => false,
    }
}

/// Whether the numerals of an initialiser are in range.
#[cycle(ranging)]
pub(crate) fn init_in_range(kind: &IrType, init: &Init) -> bool
    ensures { result ≡ items.init_in_range kind.now init.now }
{
    match init {
        Init::Literal(value) => literal_fits(kind, value),
        Init::Zero | Init::Bytes(_) => true,
        Init::List(parts) => parts_in_range(parts.as_slice()),
    }
}

/// Whether the numerals of parts are in range.
#[cycle(ranging)]
fn parts_in_range(parts: &[InitPart]) -> bool
    ensures { result ≡ list_all part_in_range parts.now }
{
    for part in parts {
        if !init_in_range(&part.kind, part.init.get()) {
            return false;
        }
    }
    true
}
