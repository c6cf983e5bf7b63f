//! What a global holds at the start.

ghost use Rattle.std.specs.Prelude.{◌≡◌, ◌++◌, codes, OnOk};
ghost use Rattle.ir_grammar.specs.Printing.{joined, literal_text, init_text, initialiser_text};
ghost use Rattle.ir_printer.specs.Parts.{part_line};

use crate::names::{push_quoted, push_text_name};
use crate::numeral::push_numeral;
use crate::types::push_type;
use ir_model::{Init, InitPart, IrType, Operand};
use std::alloc::AllocError;

/// Appends a literal. A register and a global, which no literal is, have empty names.
fn push_literal(out: &mut Vec<u8>, kind: &IrType, value: Operand) -> Result<(), AllocError>
    ensures { OnOk result (out.new.items ≡ out.old.items ++ literal_text kind.now value) }
{
    match value {
        Operand::Reg(_) => {
            out.push(b'%')?;
            Ok(())
        }
        Operand::Num(n) => push_numeral(out, kind, n),
        Operand::Null => out.extend_from_slice(b"null"),
        Operand::Global(_) => {
            out.push(b'@')?;
            push_text_name(out, &[])
        }
        Operand::Undef => out.extend_from_slice(b"undef"),
        Operand::Poison => out.extend_from_slice(b"poison"),
    }
}

/// Appends an initialiser of a type; a list is `[type init, ..]`.
#[cycle(initialisers)]
fn push_init(out: &mut Vec<u8>, kind: &IrType, init: &Init) -> Result<(), AllocError>
    ensures { OnOk result (out.new.items ≡ out.old.items ++ init_text kind.now init.now) }
{
    match init {
        Init::Literal(value) => push_literal(out, kind, *value),
        Init::Zero => out.extend_from_slice(b"zeroinitializer"),
        Init::Bytes(text) => {
            out.push(b'c')?;
            push_quoted(out, text.as_slice())
        }
        Init::List(parts) => {
            out.push(b'[')?;
            push_parts(out, parts.as_slice())?;
            out.push(b']')?;
            Ok(())
        }
    }
}

/// Appends the type and the initialiser of a part.
#[cycle(initialisers)]
fn push_part(out: &mut Vec<u8>, part: &InitPart) -> Result<(), AllocError>
    ensures { OnOk result (out.new.items ≡ out.old.items ++ part_line part.now) }
{
    push_type(out, &part.kind)?;
    out.push(b' ')?;
    push_init(out, &part.kind, part.init.get())
}

/// Appends parts, with commas between them.
#[cycle(initialisers)]
fn push_parts(out: &mut Vec<u8>, parts: &[InitPart]) -> Result<(), AllocError>
    ensures { OnOk result (out.new.items ≡ out.old.items ++ joined part_line (codes ", ") parts.now) }
{
    let Some((first, rest)) = parts.split_first() else {
        return Ok(());
    };
    push_part(out, first)?;
    for part in rest {
        out.extend_from_slice(b", ")?;
        push_part(out, part)?;
    }
    Ok(())
}

/// Appends ` init`, where there is an initialiser.
pub fn push_initialiser(
    out: &mut Vec<u8>,
    kind: &IrType,
    init: &Option<Init>,
) -> Result<(), AllocError>
    ensures { OnOk result (out.new.items ≡ out.old.items ++ initialiser_text kind.now init.now) }
{
    match init {
        None => Ok(()),
        Some(value) => {
            out.push(b' ')?;
            push_init(out, kind, value)
        }
    }
}
