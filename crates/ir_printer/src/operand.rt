//! Operands, with their types and without them.

ghost use Rattle.std.specs.Prelude.{◌≡◌, ◌∷◌, ◌++◌, codes, OnOk};
ghost use Rattle.ir_grammar.specs.Printing.{type_text, operand_text, typed_text, pointer_text, target_text, two_text};
ghost use Rattle.ir_printer.specs.Shown.{shown};

use crate::numeral::push_numeral;
use crate::shown::{Names, push_block_name, push_global_name, push_value_name};
use crate::types::push_type;
use ir_model::{IrType, Operand, TypedOperand};
use scev_base::BlockId;
use std::alloc::AllocError;

/// Appends an operand of a type, without the type.
pub fn push_operand(
    out: &mut Vec<u8>,
    names: &Names<'_>,
    kind: &IrType,
    operand: Operand,
) -> Result<(), AllocError>
    ensures { OnOk result (out.new.items ≡ out.old.items ++ operand_text (shown names.now) kind.now operand) }
{
    match operand {
        Operand::Reg(value) => push_value_name(out, names, value),
        Operand::Num(n) => push_numeral(out, kind, n),
        Operand::Null => out.extend_from_slice(b"null"),
        Operand::Global(global) => push_global_name(out, names, global),
        Operand::Undef => out.extend_from_slice(b"undef"),
        Operand::Poison => out.extend_from_slice(b"poison"),
    }
}

/// Appends a type and an operand of it.
pub fn push_of_type(
    out: &mut Vec<u8>,
    names: &Names<'_>,
    kind: &IrType,
    operand: Operand,
) -> Result<(), AllocError>
    ensures { OnOk result (out.new.items
        ≡ out.old.items ++ (type_text kind.now ++ 32 ∷ operand_text (shown names.now) kind.now operand)) }
{
    push_type(out, kind)?;
    out.push(b' ')?;
    push_operand(out, names, kind, operand)
}

/// Appends an operand with its type.
pub fn push_typed(
    out: &mut Vec<u8>,
    names: &Names<'_>,
    typed: &TypedOperand,
) -> Result<(), AllocError>
    ensures { OnOk result (out.new.items ≡ out.old.items ++ typed_text (shown names.now) typed.now) }
{
    push_of_type(out, names, &typed.kind, typed.value)
}

/// Appends `type v, v`.
pub fn push_two(
    out: &mut Vec<u8>,
    names: &Names<'_>,
    kind: &IrType,
    left: Operand,
    right: Operand,
) -> Result<(), AllocError>
    ensures { OnOk result (out.new.items ≡ out.old.items ++ two_text (shown names.now) kind.now left right) }
{
    push_of_type(out, names, kind, left)?;
    out.extend_from_slice(b", ")?;
    push_operand(out, names, kind, right)
}

/// Appends `ptr v`.
pub fn push_pointer(
    out: &mut Vec<u8>,
    names: &Names<'_>,
    pointer: Operand,
) -> Result<(), AllocError>
    ensures { OnOk result (out.new.items ≡ out.old.items ++ pointer_text (shown names.now) pointer) }
{
    out.extend_from_slice(b"ptr ")?;
    push_operand(out, names, &IrType::Ptr, pointer)
}

/// Appends `i1 v`.
pub fn push_condition(out: &mut Vec<u8>, names: &Names<'_>, cond: Operand) -> Result<(), AllocError>
    ensures { OnOk result (out.new.items
        ≡ out.old.items ++ (codes "i1 " ++ operand_text (shown names.now) (IrType.Int 1) cond)) }
{
    out.extend_from_slice(b"i1 ")?;
    push_operand(out, names, &IrType::Int(1), cond)
}

/// Appends `label %block`.
pub fn push_target(out: &mut Vec<u8>, names: &Names<'_>, block: BlockId) -> Result<(), AllocError>
    ensures { OnOk result (out.new.items ≡ out.old.items ++ target_text (shown names.now) block.0) }
{
    out.extend_from_slice(b"label ")?;
    push_block_name(out, names, block)
}
