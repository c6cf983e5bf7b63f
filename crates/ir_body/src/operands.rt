//! Operands.

ghost use Rattle.std.specs.Prelude.{◌≡◌, ◌+◌, ◌^◌, ◌<◌, ◌≤◌, length, IfOk, IfErr, IfSome, IsTrue, Some, None, if◌then◌else◌};
ghost use Rattle.std.specs.Option.{is_some, option_map};
ghost use Rattle.ir_parts.specs.declared.fault.ItemFault.TheVariants.{OutOfMemory};
ghost use Rattle.ir_text.specs.Said.{said_local, said_global};
ghost use Rattle.ir_text.specs.declared.token.TokenKind.TheVariants.{Local, Global};
ghost use Rattle.ir_model.specs.Sites.{operand_sites, typed_sites};
ghost use Rattle.ir_text.specs.Sites.{bare_operand, bare_typed};
ghost use Rattle.ir_parts.specs.Reading.{left_from, first_given, Reads, ReadsAs};
ghost use Rattle.ir_parts.specs.Places.{mentions_at};
ghost use Rattle.ir_body.specs.Operands.{operand_of, operand_at, typed_at, pointer_at, block_name_at, target_at, two_at};
ghost use Rattle.ir_body.specs.Views.{bare_two, two_sites, bare_block_name, block_name_sites};

use ir_lex::{TokenKind, Tokens};
use ir_model::{IrType, Operand, TypedOperand};
use ir_parts::{
    ItemFault, behind_keyword, behind_sign, is_global, is_local, next, numeral, read_scalar_type,
    starts_local, word_operand,
};
use scev_base::{BlockId, ValueId};

/// An operand: a register, a global, a numeral, or one of `true`, `false`, `null`, `undef` and `poison`.
///
/// A numeral that doesn't fit 128 signed bits counts as want of memory; no lexer gives one.
#[tactic(auto, unfolding(crate::specs::Operands::operand_at))]
pub fn read_operand(tokens: &Tokens<'_>, from: usize) -> Result<(Operand, usize), ItemFault>
    requires { from ≤ length tokens.now.tokens }
    ensures value { ReadsAs (λ value. (bare_operand value, mentions_at tokens.now (operand_sites value))) tokens.now
        result (operand_at (left_from tokens.now from)) }
    ensures forth { IfOk result (λ read. (from < read.1) × (read.1 ≤ length tokens.now.tokens)) }
{
    match first_operand(tokens, from)? {
        Some(value) => Ok((value, from + 1)),
        None => Err(ItemFault::CannotGoOn { at_token: from }),
    }
}

/// The operand that the token at a place is.
fn first_operand(tokens: &Tokens<'_>, from: usize) -> Result<Option<Operand>, ItemFault>
    ensures value { IfOk result (λ found. first_given operand_of (left_from tokens.now from)
        ≡ option_map (λ value. (bare_operand value, mentions_at tokens.now (operand_sites value))) found) }
    ensures within { IfOk result (λ found.
        IfSome found (λ _. (from < length tokens.now.tokens) × (from + 1 < 2 ^ 64))) }
    ensures large { IfErr result (λ fault. fault ≡ OutOfMemory) }
{
    let Some((kind, text)) = next(tokens, from) else {
        return Ok(None);
    };
    match kind {
        TokenKind::Local => Ok(register(from, text)),
        TokenKind::Global => Ok(global(from, text)),
        TokenKind::Numeral => match numeral(text) {
            Some(value) => Ok(Some(value)),
            None => Err(ItemFault::OutOfMemory),
        },
        TokenKind::Word => Ok(word_operand(text)),
        _ => Ok(None),
    }
}

/// The register whose name stands at a place.
fn register(from: usize, text: &[u8]) -> Option<Operand>
    ensures { result ≡ (if is_some (said_local (record { kind = Local; text = text.now }))
        then Some (Operand.Reg (record { 0 = from })) else None) }
{
    if is_local(TokenKind::Local, text) {
        Some(Operand::Reg(ValueId(from as u64)))
    } else {
        None
    }
}

/// The global whose name stands at a place.
fn global(from: usize, text: &[u8]) -> Option<Operand>
    ensures { result ≡ (if is_some (said_global (record { kind = Global; text = text.now }))
        then Some (Operand.Global from) else None) }
{
    if is_global(TokenKind::Global, text) {
        Some(Operand::Global(from as u64))
    } else {
        None
    }
}

/// A block by its name.
#[tactic(auto, unfolding(crate::specs::Operands::block_name_at))]
pub(crate) fn read_block_name(
    tokens: &Tokens<'_>,
    from: usize,
) -> Result<(BlockId, usize), ItemFault>
    requires { from ≤ length tokens.now.tokens }
    ensures value { ReadsAs (λ id. (bare_block_name id, mentions_at tokens.now (block_name_sites id))) tokens.now
        result (block_name_at (left_from tokens.now from)) }
    ensures forth { IfOk result (λ read. (from < read.1) × (read.1 ≤ length tokens.now.tokens)) }
{
    if starts_local(tokens, from) {
        Ok((BlockId(from as u64), from + 1))
    } else {
        Err(ItemFault::CannotGoOn { at_token: from })
    }
}

/// An operand with its type.
#[tactic(auto, unfolding(crate::specs::Operands::typed_at), using(crate::proofs::Told::told))]
pub(crate) fn read_typed(
    tokens: &Tokens<'_>,
    from: usize,
) -> Result<(TypedOperand, usize), ItemFault>
    requires { from ≤ length tokens.now.tokens }
    ensures value { ReadsAs (λ typed. (bare_typed typed, mentions_at tokens.now (typed_sites typed))) tokens.now
        result (typed_at (left_from tokens.now from)) }
    ensures forth { IfOk result (λ read. (from < read.1) × (read.1 ≤ length tokens.now.tokens)) }
{
    let (kind, at) = read_scalar_type(tokens, from)?;
    let (value, at) = read_operand(tokens, at)?;
    Ok((TypedOperand { kind, value }, at))
}

/// An operand behind `ptr`.
#[tactic(auto, unfolding(crate::specs::Operands::pointer_at), using(crate::proofs::Told::told))]
pub(crate) fn read_pointer(tokens: &Tokens<'_>, from: usize) -> Result<(Operand, usize), ItemFault>
    requires { from ≤ length tokens.now.tokens }
    ensures value { ReadsAs (λ value. (bare_operand value, mentions_at tokens.now (operand_sites value))) tokens.now
        result (pointer_at (left_from tokens.now from)) }
    ensures forth { IfOk result (λ read. (from < read.1) × (read.1 ≤ length tokens.now.tokens)) }
{
    let at = behind_keyword(tokens, from, b"ptr")?;
    read_operand(tokens, at)
}

/// A block behind `label`.
#[tactic(auto, unfolding(crate::specs::Operands::target_at), using(crate::proofs::Told::told))]
pub(crate) fn read_target(tokens: &Tokens<'_>, from: usize) -> Result<(BlockId, usize), ItemFault>
    requires { from ≤ length tokens.now.tokens }
    ensures value { ReadsAs (λ id. (bare_block_name id, mentions_at tokens.now (block_name_sites id))) tokens.now
        result (target_at (left_from tokens.now from)) }
    ensures forth { IfOk result (λ read. (from < read.1) × (read.1 ≤ length tokens.now.tokens)) }
{
    let at = behind_keyword(tokens, from, b"label")?;
    read_block_name(tokens, at)
}

/// Two operands of one type.
#[derive(Drop)]
pub(crate) struct Two {
    pub kind: IrType,
    pub left: Operand,
    pub right: Operand,
}

/// Two operands of one type.
#[tactic(auto, unfolding(crate::specs::Operands::two_at), using(crate::proofs::Told::told))]
pub(crate) fn read_two(tokens: &Tokens<'_>, from: usize) -> Result<(Two, usize), ItemFault>
    requires { from ≤ length tokens.now.tokens }
    ensures value { ReadsAs (λ two. (bare_two two, mentions_at tokens.now (two_sites two))) tokens.now
        result (two_at (left_from tokens.now from)) }
    ensures forth { IfOk result (λ read. (from < read.1) × (read.1 ≤ length tokens.now.tokens)) }
{
    let (kind, at) = read_scalar_type(tokens, from)?;
    let (left, at) = read_operand(tokens, at)?;
    let at = behind_sign(tokens, at, b',')?;
    let (right, at) = read_operand(tokens, at)?;
    Ok((Two { kind, left, right }, at))
}
