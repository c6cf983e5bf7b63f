//! The token at a place of an input.

ghost use Rattle.std.specs.Prelude.{◌≡◌, ◌+◌, ◌^◌, ◌<◌, ◌≤◌, Some, None, MatchOption, length, slice_get};
ghost use Rattle.ir_lex.specs.Tokenized.{placed};

use ir_lex::{TokenKind, Tokens};

/// The kind and the text of the token at a place, and its first byte. None comes exactly where there are no more.
pub(crate) fn placed<'a>(tokens: &Tokens<'a>, at: usize) -> Option<(TokenKind, &'a [u8], usize)>
    ensures value { MatchOption result (slice_get (placed tokens.now) at ≡ None)
        (λ token. slice_get (placed tokens.now) at
        ≡ Some (record { lexeme = record { kind = token.0; text = token.1.now }; from = token.2 })) }
    ensures within { MatchOption result (length tokens.now.tokens ≤ at) (λ token. at < length tokens.now.tokens) }
    ensures end { MatchOption result (Unit {0}) (λ token. token.2 + length token.1.now < 2 ^ 64) }
{
    let token = tokens.get(at)?;
    let text = tokens.text(at)?;
    Some((token.kind, text, token.from))
}
