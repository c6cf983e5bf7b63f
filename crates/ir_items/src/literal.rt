//! Literals.

ghost use Rattle.std.specs.Prelude.{◌≡◌, ◌+◌, ◌^◌, ◌<◌, ◌≤◌, length, IfOk, IfErr, IfSome};
ghost use Rattle.ir_parts.specs.declared.fault.ItemFault.TheVariants.{OutOfMemory};
ghost use Rattle.ir_parts.specs.Reading.{left_from, first_given, Reads};
ghost use Rattle.ir_items.specs.LiteralReading.{literal_of_parts, literal_of, literal_at};

use ir_lex::{TokenKind, Tokens};
use ir_model::Operand;
use ir_parts::{ItemFault, next, numeral, word_operand};

/// A literal: a numeral, or one of `true`, `false`, `null`, `undef` and `poison`.
///
/// A numeral that doesn't fit 128 signed bits counts as want of memory; no lexer gives one.
pub(crate) fn literal(tokens: &Tokens<'_>, from: usize) -> Result<(Operand, usize), ItemFault>
    requires { from ≤ length tokens.now.tokens }
    ensures value { Reads tokens.now result (literal_at (left_from tokens.now from)) }
    ensures forth { IfOk result (λ read. (from < read.1) × (read.1 ≤ length tokens.now.tokens)) }
{
    match first_literal(tokens, from)? {
        Some(value) => Ok((value, from + 1)),
        None => Err(ItemFault::CannotGoOn { at_token: from }),
    }
}

/// The literal that the token at a place is.
fn first_literal(tokens: &Tokens<'_>, from: usize) -> Result<Option<Operand>, ItemFault>
    ensures value { IfOk result (λ found. first_given literal_of (left_from tokens.now from) ≡ found) }
    ensures within { IfOk result (λ found.
        IfSome found (λ _. (from < length tokens.now.tokens) × (from + 1 < 2 ^ 64))) }
    ensures large { IfErr result (λ fault. fault ≡ OutOfMemory) }
{
    match next(tokens, from) {
        Some((kind, text)) => literal_of(kind, text),
        None => Ok(None),
    }
}

#[tactic(auto, unfolding(crate::specs::LiteralReading::literal_of_parts))]
fn literal_of(kind: TokenKind, text: &[u8]) -> Result<Option<Operand>, ItemFault>
    ensures value { IfOk result (λ found. found ≡ literal_of_parts kind text.now) }
    ensures large { IfErr result (λ fault. fault ≡ OutOfMemory) }
{
    match kind {
        TokenKind::Numeral => match numeral(text) {
            Some(value) => Ok(Some(value)),
            None => Err(ItemFault::OutOfMemory),
        },
        TokenKind::Word => Ok(word_operand(text)),
        _ => Ok(None),
    }
}
