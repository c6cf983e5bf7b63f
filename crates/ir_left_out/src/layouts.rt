//! Data layouts with what is left out.

ghost use Rattle.std.specs.Prelude.{◌≡◌, ◌↔◌, ◌^◌, ◌<◌, ◌≤◌, List, [], ◌∷◌, ◌++◌, ℕ, IsTrue, IfOk, IfSome, MatchOption, length, take};
ghost use Rattle.ir_lex.specs.Tokenized.{lexemes};
ghost use Rattle.ir_parts.specs.Reading.{left_from, Passes};
ghost use Rattle.ir_left_out.specs.Layouts.{EndsTarget, IsQuotedFault, IsFaultyLayout, Finds, target_at};

use ir_items::layout_fault;
use ir_lex::{TokenKind, Tokens};
use ir_parts::{ItemFault, behind_keyword, behind_sign};
use std::alloc::AllocError;

/// The number of what is left out in a data layout, where the token at a place is one, and how far behind the token's
/// first byte it begins.
pub(crate) fn faulty_layout(
    tokens: &Tokens<'_>,
    at: usize,
    kind: TokenKind,
    text: &[u8],
) -> Result<Option<(u16, usize)>, AllocError>
    requires place { at ≤ length tokens.now.tokens }
    requires fits { length text.now < 2 ^ 64 }
    ensures value { IfOk result (λ found.
        Finds (IsFaultyLayout (take at (lexemes tokens.now)) (record { kind = kind; text = text.now })) found) }
    ensures within { IfOk result (λ found. IfSome found (λ fault. fault.1 < length text.now)) }
{
    if kind != TokenKind::Quoted {
        return Ok(None);
    }
    if ends_target(tokens, at)? {
        Ok(quoted_fault(text))
    } else {
        Ok(None)
    }
}

/// Whether the tokens before a place end with `target datalayout =`.
fn ends_target(tokens: &Tokens<'_>, at: usize) -> Result<bool, AllocError>
    requires { at ≤ length tokens.now.tokens }
    ensures { IfOk result (λ ends. IsTrue ends ↔ EndsTarget (take at (lexemes tokens.now))) }
{
    if at < 3 {
        return Ok(false);
    }
    match behind_target(tokens, at - 3) {
        Ok(behind) => Ok(behind == at),
        Err(ItemFault::CannotGoOn { .. }) => Ok(false),
        Err(ItemFault::OutOfMemory) => Err(AllocError),
    }
}

/// The place behind `target datalayout =`.
#[tactic(auto, unfolding(crate::specs::Layouts::target_at))]
fn behind_target(tokens: &Tokens<'_>, from: usize) -> Result<usize, ItemFault>
    requires { from ≤ length tokens.now.tokens }
    ensures value { Passes tokens.now result (target_at (left_from tokens.now from)) }
    ensures forth { IfOk result (λ at. (from < at) × (at ≤ length tokens.now.tokens)) }
{
    let at = behind_keyword(tokens, from, b"target")?;
    let at = behind_keyword(tokens, at, b"datalayout")?;
    behind_sign(tokens, at, b'=')
}

/// What is left out between the quotes of a text.
fn quoted_fault(text: &[u8]) -> Option<(u16, usize)>
    requires { length text.now < 2 ^ 64 }
    ensures value { Finds (IsQuotedFault text.now) result }
    ensures within { IfSome result (λ fault. fault.1 < length text.now) }
{
    let inner = between_quotes(text)?;
    let (number, offset) = layout_fault(inner)?;
    Some((number, 1 + offset))
}

/// What stands between two quotes.
fn between_quotes(text: &[u8]) -> Option<&[u8]>
    ensures { MatchOption result ((inner : List ℕ) → text.now ≡ 34 ∷ (inner ++ 34 ∷ []) → ⊥)
        (λ inner. text.now ≡ 34 ∷ (inner.now ++ 34 ∷ [])) }
{
    let (first, rest) = text.split_first()?;
    let (last, inner) = rest.split_last()?;
    if *first == b'"' && *last == b'"' {
        Some(inner)
    } else {
        None
    }
}
