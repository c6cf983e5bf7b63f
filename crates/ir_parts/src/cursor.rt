//! Looking at the token at a place.

ghost use Rattle.std.specs.Prelude.{◌≡◌, ◌+◌, ◌^◌, ◌<◌, ◌≤◌, [], ◌∷◌, length, IfOk, IsTrue, MatchOption};
ghost use Rattle.ir_parts.specs.Reading.{left_from, begins, Passes, is_keyword, is_punctuation, keyword_at, punctuation_at};

use crate::fault::ItemFault;
use ir_lex::{TokenKind, Tokens};

/// The token at a place. None comes exactly where there are no more.
pub fn next<'a>(tokens: &Tokens<'a>, from: usize) -> Option<(TokenKind, &'a [u8])>
    ensures { MatchOption result (left_from tokens.now from ≡ [])
        (λ token. (left_from tokens.now from
        ≡ record { kind = token.0; text = token.1.now } ∷ left_from tokens.now (from + 1))
        × (from < length tokens.now.tokens) × (from + 1 < 2 ^ 64)) }
{
    if from >= tokens.len() {
        return None;
    }
    let token = tokens.get(from)?;
    let text = tokens.text(from)?;
    Some((token.kind, text))
}

/// Whether the token at a place is this word.
pub fn starts_keyword(tokens: &Tokens<'_>, from: usize, text: &[u8]) -> bool
    ensures value { result ≡ begins (is_keyword text.now) (left_from tokens.now from) }
    ensures within { IsTrue result → (from < length tokens.now.tokens) × (from + 1 < 2 ^ 64) }
{
    match next(tokens, from) {
        Some((TokenKind::Word, word)) => word == text,
        _ => false,
    }
}

/// Whether the token at a place is this sign.
pub fn starts_sign(tokens: &Tokens<'_>, from: usize, sign: u8) -> bool
    ensures value { result ≡ begins (is_punctuation sign) (left_from tokens.now from) }
    ensures within { IsTrue result → (from < length tokens.now.tokens) × (from + 1 < 2 ^ 64) }
{
    match next(tokens, from) {
        Some((TokenKind::Sign(byte), text)) => byte == sign && text == [byte].as_slice(),
        _ => false,
    }
}

/// The place behind this word.
pub fn behind_keyword(tokens: &Tokens<'_>, from: usize, text: &[u8]) -> Result<usize, ItemFault>
    requires { from ≤ length tokens.now.tokens }
    ensures value { Passes tokens.now result (keyword_at text.now (left_from tokens.now from)) }
    ensures forth { IfOk result (λ at. (from < at) × (at ≤ length tokens.now.tokens)) }
{
    if starts_keyword(tokens, from, text) {
        Ok(from + 1)
    } else {
        Err(ItemFault::CannotGoOn { at_token: from })
    }
}

/// The place behind this sign.
pub fn behind_sign(tokens: &Tokens<'_>, from: usize, sign: u8) -> Result<usize, ItemFault>
    requires { from ≤ length tokens.now.tokens }
    ensures value { Passes tokens.now result (punctuation_at sign (left_from tokens.now from)) }
    ensures forth { IfOk result (λ at. (from < at) × (at ≤ length tokens.now.tokens)) }
{
    if starts_sign(tokens, from, sign) {
        Ok(from + 1)
    } else {
        Err(ItemFault::CannotGoOn { at_token: from })
    }
}
