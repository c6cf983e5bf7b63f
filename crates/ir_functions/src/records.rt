//! Debug records, which are dropped.

ghost use Rattle.std.specs.Prelude.{◌≡◌, ◌+◌, ◌^◌, ◌<◌, ◌≤◌, length, IfOk, IsTrue};
ghost use Rattle.ir_parts.specs.Reading.{left_from, begins, token_at, Passes};
ghost use Rattle.ir_functions.specs.Silent.{is_record_text, is_record, record_at};

use ir_lex::{TokenKind, Tokens};
use ir_parts::{ItemFault, next, parentheses, skip_metadata};
use ir_text::is_word;
use std::alloc::Global;

/// The place behind a debug record and its attachments.
#[tactic(auto, unfolding(crate::specs::Silent::record_at))]
pub(crate) fn skip_record(
    alloc: Global,
    tokens: &Tokens<'_>,
    from: usize,
) -> Result<usize, ItemFault>
    requires { from ≤ length tokens.now.tokens }
    ensures value { Passes tokens.now result (record_at (left_from tokens.now from)) }
    ensures forth { IfOk result (λ at. (from < at) × (at ≤ length tokens.now.tokens)) }
{
    let at = record_name(tokens, from)?;
    let at = parentheses(alloc, tokens, at)?;
    skip_metadata(alloc, tokens, at)
}

/// `#` and a word.
fn record_name(tokens: &Tokens<'_>, from: usize) -> Result<usize, ItemFault>
    requires { from ≤ length tokens.now.tokens }
    ensures value { Passes tokens.now result (token_at is_record (left_from tokens.now from)) }
    ensures forth { IfOk result (λ at. (from < at) × (at ≤ length tokens.now.tokens)) }
{
    if starts_record(tokens, from) {
        Ok(from + 1)
    } else {
        Err(ItemFault::CannotGoOn { at_token: from })
    }
}

/// Whether a debug record begins at a place.
pub(crate) fn starts_record(tokens: &Tokens<'_>, from: usize) -> bool
    ensures value { result ≡ begins is_record (left_from tokens.now from) }
    ensures within { IsTrue result → (from < length tokens.now.tokens) × (from + 1 < 2 ^ 64) }
{
    match next(tokens, from) {
        Some((TokenKind::Group, text)) => is_record_text(text),
        _ => false,
    }
}

#[tactic(auto, unfolding(crate::specs::Silent::is_record_text))]
fn is_record_text(text: &[u8]) -> bool
    ensures { result ≡ is_record_text text.now }
{
    match text {
        [b'#', name @ ..] => is_word(name),
        _ => false,
    }
}
