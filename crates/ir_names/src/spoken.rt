//! What the names of tokens say.

ghost use Rattle.std.specs.Prelude.{◌≡◌, IfOk, slice_get, Some, MatchOption, None};
ghost use Rattle.std.specs.Option.{option_map, option_copied};
ghost use Rattle.ir_text.specs.Said.{said_local, said_label, said_global, is_local_kind, is_label_kind, is_global_kind};
ghost use Rattle.ir_lex.specs.Tokenized.{lexemes};
ghost use Rattle.ir_parts.specs.Places.{said_at};
ghost use Rattle.ir_names.specs.Keys.{name_of_key};
ghost use Rattle.ir_names.specs.Meant.{meant_of, AreMeanings};

use crate::key::Key;
use crate::meanings::{Meanings, is_label};
use crate::written::{said, said_global};
use ir_lex::{TokenKind, Tokens};
use ir_parts::{before_last, behind_first};
use std::alloc::AllocError;
use std::marker::Model;

/// The tokens of a module, with what the escapes in their names mean. Contracts see the tokens.
#[derive(Drop)]
pub struct Spoken<'a, 't> {
    tokens: &'a Tokens<'t>,
    meanings: &'a Meanings,
}

impl<'a, 't> Model for Spoken<'a, 't> {
    ghost use Rattle.ir_lex.specs.Tokenized.{Tokenized};
    ghost use Rattle.ir_names.specs.Meant.{AreMeanings};

    ghost Value = { Tokenized };

    ghost view = { λ s. s.tokens.now };

    ghost invariant = { λ s. AreMeanings s.meanings.now s.tokens.now };
}

impl<'a, 't> Spoken<'a, 't> {
    /// Tokens with what the escapes in their names mean.
    pub fn new(tokens: &'a Tokens<'t>, meanings: &'a Meanings) -> Spoken<'a, 't>
        requires { AreMeanings meanings.now tokens.now }
        ensures { result ≡ tokens.now }
    {
        Spoken { tokens, meanings }
    }

    /// What `%name` at a position says.
    #[tactic(auto, unfolding(ir_text::specs::Said::said_local))]
    pub fn local(&self, at: u64) -> Result<Option<Key<'a>>, AllocError>
        ensures { IfOk result (λ name. option_map name_of_key name ≡ said_at said_local self.now at) }
    {
        let Some(found) = self.token(at) else {
            return Ok(None);
        };
        if !is_local(found.kind) || !found.text.starts_with(b"%".as_slice()) {
            return Ok(None);
        }
        said(behind_first(found.text), found.known)
    }

    /// What `name:` at a position says.
    #[tactic(auto, unfolding(ir_text::specs::Said::said_label))]
    pub fn label(&self, at: u64) -> Result<Option<Key<'a>>, AllocError>
        ensures { IfOk result (λ name. option_map name_of_key name ≡ said_at said_label self.now at) }
    {
        let Some(found) = self.token(at) else {
            return Ok(None);
        };
        if !is_label(found.kind) || !found.text.ends_with(b":".as_slice()) {
            return Ok(None);
        }
        said(before_last(found.text), found.known)
    }

    /// What `@name` at a position says.
    #[tactic(auto, unfolding(ir_text::specs::Said::said_global))]
    pub fn global(&self, at: u64) -> Option<&'a [u8]>
        ensures { option_copied result ≡ said_at said_global self.now at }
    {
        let found = self.token(at)?;
        if !is_global(found.kind) || !found.text.starts_with(b"@".as_slice()) {
            return None;
        }
        said_global(behind_first(found.text), found.known)
    }

    // The token at a position.
    fn token(&self, at: u64) -> Option<Found<'a>>
        ensures { MatchOption result (slice_get (lexemes self.now) at ≡ None) (λ found.
            (slice_get (lexemes self.now) at ≡ Some (record { kind = found.kind; text = found.text.now }))
            × (option_copied found.known ≡ meant_of (record { kind = found.kind; text = found.text.now }))) }
    {
        let place = at as usize;
        let token = self.tokens.get(place)?;
        let text = self.tokens.text(place)?;
        Some(Found {
            kind: token.kind,
            text,
            known: self.meanings.at(place),
        })
    }
}

// A token, and what the escapes in its name mean, where it has some.
#[derive(Clone, Copy)]
struct Found<'a> {
    kind: TokenKind,
    text: &'a [u8],
    known: Option<&'a [u8]>,
}

fn is_local(kind: TokenKind) -> bool
    ensures { result ≡ is_local_kind kind }
{
    matches!(kind, TokenKind::Local)
}

fn is_global(kind: TokenKind) -> bool
    ensures { result ≡ is_global_kind kind }
{
    matches!(kind, TokenKind::Global)
}
