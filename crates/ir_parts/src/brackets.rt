//! Brackets, and what stands between them.

ghost use Rattle.std.specs.Prelude.{◌≡◌, ℕ, ◌<◌, ◌≤◌, [], ◌∷◌, length, reverse, IfOk, MatchResult};
ghost use Rattle.ir_parts.specs.Reading.{left_from, Passes};
ghost use Rattle.ir_parts.specs.BracketsReading.{bracket_of_sign, bracket_of_parts, behind_bracket, closed_at, Follows};

use crate::cursor::next;
use crate::fault::ItemFault;
use ir_lex::{TokenKind, Tokens};
use sqlite_items::Items;
use std::alloc::{AllocError, Global};

/// What a token is among brackets.
#[derive(Clone, Copy, Debug, PartialEq, Eq)]
pub(crate) enum Bracket {
    /// It opens, and this one closes.
    Opening(u8),
    Closing(u8),
    /// It is no bracket.
    Plain,
    /// Its kind is a bracket's, and its text isn't.
    Wrong,
}

/// The place behind the bracket that closes the one before a place, whose closing one this is.
pub(crate) fn behind_brackets(
    alloc: Global,
    tokens: &Tokens<'_>,
    from: usize,
    closing: u8,
) -> Result<usize, ItemFault>
    requires { from ≤ length tokens.now.tokens }
    ensures value { Passes tokens.now result (closed_at (closing ∷ []) (left_from tokens.now from)) }
    ensures forth { IfOk result (λ at. (from < at) × (at ≤ length tokens.now.tokens)) }
{
    let mut waited = Items::new(alloc);
    waited.push(closing)?;
    let mut at = from;
    while !waited.is_empty() {
        let Some((kind, text)) = next(tokens, at) else {
            return Err(ItemFault::CannotGoOn { at_token: at });
        };
        if !pass(bracket_of(kind, text), &mut waited)? {
            return Err(ItemFault::CannotGoOn { at_token: at });
        }
        at += 1;
    }
    Ok(at)
}

/// Takes one more token: whether it may stand there. The innermost closing bracket that is waited for stands last.
fn pass(bracket: Bracket, waited: &mut Items<u8>) -> Result<bool, AllocError>
    ensures { IfOk result (Follows (behind_bracket bracket (reverse waited.old)) (reverse waited.new)) }
{
    match bracket {
        Bracket::Opening(closing) => {
            waited.push(closing)?;
            Ok(true)
        }
        Bracket::Closing(closing) => Ok(waited.pop() == Some(closing)),
        Bracket::Plain => Ok(true),
        Bracket::Wrong => Ok(false),
    }
}

fn bracket_of(kind: TokenKind, text: &[u8]) -> Bracket
    ensures { result ≡ bracket_of_parts kind text.now }
{
    match kind {
        TokenKind::Sign(byte) => bracket_of_sign(byte, text),
        _ => Bracket::Plain,
    }
}

#[tactic(auto, unfolding(crate::specs::BracketsReading::bracket_of_sign))]
fn bracket_of_sign(byte: u8, text: &[u8]) -> Bracket
    ensures { result ≡ bracket_of_sign byte text.now }
{
    let bracket = match byte {
        b'(' => Bracket::Opening(b')'),
        b'[' => Bracket::Opening(b']'),
        b'{' => Bracket::Opening(b'}'),
        b')' | b']' | b'}' => Bracket::Closing(byte),
        _ => return Bracket::Plain,
    };
    if text == [byte].as_slice() {
        bracket
    } else {
        Bracket::Wrong
    }
}
