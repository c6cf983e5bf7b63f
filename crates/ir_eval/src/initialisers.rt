//! What globals hold at the start.

ghost use Rattle.std.specs.Prelude.{◌≡◌, true, map, replicate, OnOk};
ghost use Rattle.ir_memory.specs.Memory.{is_byte};
ghost use Rattle.ir_memory.specs.Spelling.{number_bytes};
ghost use Rattle.ir_meaning.specs.Accesses.{type_size};
ghost use Rattle.ir_rules.specs.Limits.{int_size as bytes_of_int};
ghost use Rattle.scev_base.specs.Residue.{residue};
ghost use Rattle.ir_eval.specs.Globals.{literal_bytes, init_bytes, global_bytes};
ghost use Rattle.ir_eval.specs.Parts.{all_bytes, GoesOn};

use ir_machine::{bytes_in_memory, int_size};
use ir_memory::Byte;
use ir_model::{Global_, Init, InitPart, IrType, Operand};
use scev_base::{Width, wrap};
use std::alloc::AllocError;

/// Appends what a global holds at the start: its initialiser, and zeros where it is external.
pub(crate) fn push_global(out: &mut Vec<Byte>, global: &Global_) -> Result<(), AllocError>
    ensures { OnOk result (GoesOn out.old.items out.new.items (global_bytes global.now.kind global.now.init)) }
{
    match &global.init {
        None => push_same(out, Byte::Number(0), &global.kind),
        Some(init) => push_init(out, &global.kind, init),
    }
}

/// Appends an initialiser of a type.
#[cycle(filling)]
fn push_init(out: &mut Vec<Byte>, kind: &IrType, init: &Init) -> Result<(), AllocError>
    ensures { OnOk result (GoesOn out.old.items out.new.items (init_bytes kind.now init.now)) }
{
    match init {
        Init::Literal(value) => push_literal(out, kind, value),
        Init::Zero => push_same(out, Byte::Number(0), kind),
        Init::Bytes(text) => push_text(out, text.as_slice()),
        Init::List(parts) => push_parts(out, parts.as_slice()),
    }
}

/// Appends parts, one after another.
#[cycle(filling)]
fn push_parts(out: &mut Vec<Byte>, parts: &[InitPart]) -> Result<(), AllocError>
    ensures { OnOk result (GoesOn out.old.items out.new.items (all_bytes parts.now)) }
{
    for part in parts {
        push_init(out, &part.kind, part.init.get())?;
    }
    Ok(())
}

/// Appends a literal of a type: a numeral's bytes, the lowest first; poison as a whole; for `undef` zeros.
fn push_literal(out: &mut Vec<Byte>, kind: &IrType, value: &Operand) -> Result<(), AllocError>
    ensures { OnOk result (GoesOn out.old.items out.new.items (literal_bytes kind.now value.now)) }
{
    match (kind, value) {
        (IrType::Int(w), Operand::Num(z)) => push_number(out, *w, *z),
        (_, Operand::Poison) => push_same(out, Byte::Poison, kind),
        _ => push_same(out, Byte::Number(0), kind),
    }
}

/// Appends the bytes of a numeral of so many bits, the lowest first. No accepted global has more than 64 of them; these
/// would be eight bytes too.
fn push_number(out: &mut Vec<Byte>, w: u32, z: i128) -> Result<(), AllocError>
    ensures { OnOk result (GoesOn out.old.items out.new.items (number_bytes (bytes_of_int w) (residue w z))) }
{
    let mut rest = match Width::new(w.min(64)) {
        Some(width) => wrap(z, width),
        None => 0,
    };
    for _byte in 0..int_size(w) {
        out.push(Byte::Number((rest % 256) as u8))?;
        rest /= 256;
    }
    Ok(())
}

/// Appends the bytes of a text.
fn push_text(out: &mut Vec<Byte>, text: &[u8]) -> Result<(), AllocError>
    ensures { OnOk result (GoesOn out.old.items out.new.items (map Byte.Number text.now)) }
{
    for byte in text {
        out.push(Byte::Number(*byte))?;
    }
    Ok(())
}

/// Appends as many bytes as a type takes, all of them one.
fn push_same(out: &mut Vec<Byte>, byte: Byte, kind: &IrType) -> Result<(), AllocError>
    requires { is_byte byte ≡ true }
    ensures { OnOk result (GoesOn out.old.items out.new.items (replicate (type_size kind.now) byte)) }
{
    let Some(size) = bytes_in_memory(kind) else {
        return Err(AllocError);
    };
    for _byte in 0..size {
        out.push(byte)?;
    }
    Ok(())
}
