//! Whether a token says a name.

ghost use Rattle.std.specs.Prelude.{◌≡◌, ◌∷◌, ◌+◌, ◌-◌, ◌^◌, ◌<◌, length, take, drop, IsTrue};
ghost use Rattle.std.specs.Option.{is_some};
ghost use Rattle.ir_text.specs.Said.{said, said_global_text, said_local, said_label, said_global};
ghost use Rattle.ir_parts.specs.Reading.{left_from, first_given, begins};

use crate::cursor::next;
use crate::forms::{is_number, is_string_text};
use ir_lex::{TokenKind, Tokens};
use ir_text::is_word;

/// Whether a token is `%name`.
#[tactic(auto, unfolding(ir_text::specs::Said::said_local))]
pub fn is_local(kind: TokenKind, text: &[u8]) -> bool
    ensures { result ≡ is_some (said_local (record { kind = kind; text = text.now })) }
{
    kind == TokenKind::Local && text.starts_with(b"%".as_slice()) && is_name(behind_first(text))
}

/// Whether the token at a place is `%name`.
pub fn starts_local(tokens: &Tokens<'_>, from: usize) -> bool
    ensures value { result ≡ is_some (first_given said_local (left_from tokens.now from)) }
    ensures first { result ≡ begins (λ t. is_some (said_local t)) (left_from tokens.now from) }
    ensures within { IsTrue result → (from < length tokens.now.tokens) × (from + 1 < 2 ^ 64) }
{
    match next(tokens, from) {
        Some((kind, text)) => is_local(kind, text),
        None => false,
    }
}

/// Whether a token is `@name`.
#[tactic(auto, unfolding(ir_text::specs::Said::said_global))]
pub fn is_global(kind: TokenKind, text: &[u8]) -> bool
    ensures { result ≡ is_some (said_global (record { kind = kind; text = text.now })) }
{
    kind == TokenKind::Global
        && text.starts_with(b"@".as_slice())
        && is_global_name(behind_first(text))
}

/// Whether a token is `name:`.
#[tactic(auto, unfolding(ir_text::specs::Said::said_label))]
pub fn is_label(kind: TokenKind, text: &[u8]) -> bool
    ensures { result ≡ is_some (said_label (record { kind = kind; text = text.now })) }
{
    kind == TokenKind::Label && text.ends_with(b":".as_slice()) && is_name(before_last(text))
}

#[tactic(auto, unfolding(ir_text::specs::Said::said_global_text))]
fn is_global_name(written: &[u8]) -> bool
    ensures { result ≡ is_some (said_global_text written.now) }
{
    is_word(written) || is_number(written) || is_string_text(written)
}

/// The text without its first byte.
pub fn behind_first(text: &[u8]) -> &[u8]
    ensures { result.now ≡ drop 1 text.now }
{
    match text.split_first() {
        Some((_, rest)) => rest,
        None => text,
    }
}

/// The text without its last byte.
pub fn before_last(text: &[u8]) -> &[u8]
    ensures { result.now ≡ take (length text.now - 1) text.now }
{
    match text.split_last() {
        Some((_, rest)) => rest,
        None => text,
    }
}

#[tactic(auto, unfolding(ir_text::specs::Said::said))]
fn is_name(written: &[u8]) -> bool
    ensures { result ≡ is_some (said written.now) }
{
    is_word(written) || is_number(written) || is_string_text(written)
}
