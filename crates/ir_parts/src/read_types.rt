//! Reading types: what comes out is a sentence of the language of the types that a place takes, and a
//! fault stands at the first token with which none goes on.

ghost use Rattle.std.specs.Prelude.{◌≡◌, ◌<◌, ◌≤◌, length, IfOk};
ghost use Rattle.ir_model.specs.Kinds.{IsReturned, IsScalar, IsStored, IsInt};
ghost use Rattle.ir_text.specs.Types.{SpellsType, SpellsTypeOf};
ghost use Rattle.ir_parts.specs.Reading.{left_from, Reads};
ghost use Rattle.ir_parts.specs.Sentences.{Tells};
ghost use Rattle.ir_parts.specs.TypeReading.{int_type_at, stored_type_at, scalar_type_at, returned_type_at, type_at};

use crate::fault::ItemFault;
use crate::types::{any_type, int_type, returned_type, scalar_type, stored_type};
use ir_lex::Tokens;
use ir_model::IrType;
use std::alloc::Global;

/// A type of any kind, and the place behind it.
pub fn read_type(
    alloc: Global,
    tokens: &Tokens<'_>,
    from: usize,
) -> Result<(IrType, usize), ItemFault>
    requires { from ≤ length tokens.now.tokens }
    ensures sentence { Tells SpellsType tokens.now from result }
    ensures value { Reads tokens.now result (type_at (left_from tokens.now from)) }
    ensures forth { IfOk result (λ read. (from < read.1) × (read.1 ≤ length tokens.now.tokens)) }
{
    any_type(alloc, tokens, from)
}

/// A type of integers, `ptr` or `void`, and the place behind it.
pub fn read_returned_type(tokens: &Tokens<'_>, from: usize) -> Result<(IrType, usize), ItemFault>
    requires { from ≤ length tokens.now.tokens }
    ensures sentence { Tells (SpellsTypeOf IsReturned) tokens.now from result }
    ensures value { Reads tokens.now result (returned_type_at (left_from tokens.now from)) }
    ensures forth { IfOk result (λ read. (from < read.1) × (read.1 ≤ length tokens.now.tokens)) }
{
    returned_type(tokens, from)
}

/// A type of integers or `ptr`, and the place behind it.
pub fn read_scalar_type(tokens: &Tokens<'_>, from: usize) -> Result<(IrType, usize), ItemFault>
    requires { from ≤ length tokens.now.tokens }
    ensures sentence { Tells (SpellsTypeOf IsScalar) tokens.now from result }
    ensures value { Reads tokens.now result (scalar_type_at (left_from tokens.now from)) }
    ensures forth { IfOk result (λ read. (from < read.1) × (read.1 ≤ length tokens.now.tokens)) }
{
    scalar_type(tokens, from)
}

/// A type of integers or an array, and the place behind it.
pub fn read_stored_type(
    alloc: Global,
    tokens: &Tokens<'_>,
    from: usize,
) -> Result<(IrType, usize), ItemFault>
    requires { from ≤ length tokens.now.tokens }
    ensures sentence { Tells (SpellsTypeOf IsStored) tokens.now from result }
    ensures value { Reads tokens.now result (stored_type_at (left_from tokens.now from)) }
    ensures forth { IfOk result (λ read. (from < read.1) × (read.1 ≤ length tokens.now.tokens)) }
{
    stored_type(alloc, tokens, from)
}

/// A type of integers, and the place behind it.
pub fn read_int_type(tokens: &Tokens<'_>, from: usize) -> Result<(IrType, usize), ItemFault>
    requires { from ≤ length tokens.now.tokens }
    ensures sentence { Tells (SpellsTypeOf IsInt) tokens.now from result }
    ensures value { Reads tokens.now result (int_type_at (left_from tokens.now from)) }
    ensures forth { IfOk result (λ read. (from < read.1) × (read.1 ≤ length tokens.now.tokens)) }
{
    int_type(tokens, from)
}
