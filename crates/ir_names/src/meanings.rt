//! What the escapes in the names of tokens mean.

ghost use Rattle.std.specs.Prelude.{◌≡◌, ◌<◌, IfOk, slice_get, Some, length};
ghost use Rattle.std.specs.Option.{option_map, option_copied};
ghost use Rattle.ir_text.specs.Said.{is_label_kind};
ghost use Rattle.ir_lex.specs.Tokenized.{lexemes};
ghost use Rattle.ir_names.specs.Meant.{meant_of, written_of, meaning_at, AreMeanings};

use crate::written::meant;
use indexmap::IndexMap;
use ir_lex::{TokenKind, Tokens};
use ir_model::Text;
use ir_parts::{before_last, behind_first};
use std::alloc::{AllocError, Global};
use std::marker::Model;

/// What the escapes in the names of tokens mean, by the positions of the tokens.
///
/// Hardly any name has an escape, so only the tokens whose names have one take memory.
#[derive(Drop)]
pub struct Meanings {
    known: IndexMap<usize, Text>,
}

impl Model for Meanings {
    ghost use Rattle.std.specs.Prelude.{ℕ, List};

    ghost Value = { List (ℕ × List ℕ) };

    ghost view = { λ m. m.known.entries };
}

impl Meanings {
    /// The meanings of these tokens.
    pub fn of(alloc: Global, tokens: &Tokens<'_>) -> Result<Meanings, AllocError>
        ensures { IfOk result (λ meanings. AreMeanings meanings tokens.now) }
    {
        let mut known = IndexMap::new(alloc);
        for at in 0..tokens.len() {
            if let Some(bytes) = meant_at(alloc, tokens, at)? {
                known.insert(at, bytes)?;
            }
        }
        Ok(Meanings { known })
    }

    /// What the escapes in the name of a token mean, where it has some.
    pub fn at(&self, at: usize) -> Option<&[u8]>
        ensures { option_copied result ≡ meaning_at self.now at }
    {
        match self.known.get(&at) {
            Some(bytes) => Some(bytes.as_slice()),
            None => None,
        }
    }
}

fn meant_at(alloc: Global, tokens: &Tokens<'_>, at: usize) -> Result<Option<Text>, AllocError>
    requires { at < length tokens.now.tokens }
    ensures { IfOk result (λ bytes. option_map meant_of (slice_get (lexemes tokens.now) at) ≡ Some bytes) }
{
    match (tokens.get(at), tokens.text(at)) {
        (Some(token), Some(text)) => meant(alloc, written_of(token.kind, text)),
        _ => Ok(None),
    }
}

// A name behind its sigil, or before the `:` of a label.
fn written_of(kind: TokenKind, text: &[u8]) -> &[u8]
    ensures { result.now ≡ written_of (record { kind = kind; text = text.now }) }
{
    if is_label(kind) {
        before_last(text)
    } else {
        behind_first(text)
    }
}

/// Whether a token is a label, whose name stands before a `:`.
pub fn is_label(kind: TokenKind) -> bool
    ensures { result ≡ is_label_kind kind }
{
    matches!(kind, TokenKind::Label)
}
