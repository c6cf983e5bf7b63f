//! An input with its tokens.

ghost use Rattle.std.specs.Prelude.{◌≡◌, ◌<◌, length, map, slice_get};
ghost use Rattle.std.specs.Option.{option_copied, option_map};
ghost use Rattle.std.specs.List.{AllByRecursion};
ghost use Rattle.ir_lex.specs.Packed.{unpacked};
ghost use Rattle.ir_lex.specs.Tokenized.{IsWithin, lexemes};

use crate::packed::Packed;
use ir_text::Token;
use std::marker::Model;

/// An input and its tokens, which borrow it. Contracts see the bytes and the list of tokens.
#[derive(Drop)]
pub struct Tokens<'a> {
    input: &'a [u8],
    tokens: Vec<Packed>,
}

impl<'a> Model for Tokens<'a> {
    ghost use Rattle.std.specs.Prelude.{map};
    ghost use Rattle.std.specs.List.{AllByRecursion};
    ghost use Rattle.ir_lex.specs.Packed.{unpacked};
    ghost use Rattle.ir_lex.specs.Tokenized.{Tokenized, IsWithin};

    ghost Value = { Tokenized };

    ghost view = { λ t. record { bytes = t.input.now; tokens = map unpacked t.tokens.items } };

    ghost invariant = { λ t. AllByRecursion (IsWithin t.input.now) (map unpacked t.tokens.items) };
}

impl<'a> Tokens<'a> {
    /// How many tokens there are.
    pub fn len(&self) -> usize
        ensures { result ≡ length self.now.tokens }
    {
        self.tokens.len()
    }

    /// The token at a position, from 0. None comes exactly past the last one.
    pub fn get(&self, at: usize) -> Option<Token>
        ensures { result ≡ slice_get self.now.tokens at }
    {
        let packed = self.tokens.get(at)?;
        Some(packed.unpack())
    }

    /// The text of the token at a position, from 0. None comes exactly past the last one.
    pub fn text(&self, at: usize) -> Option<&'a [u8]>
        ensures { option_copied result ≡ option_map (λ lexeme. lexeme.text) (slice_get (lexemes self.now) at) }
    {
        let token = self.get(at)?;
        Some(&self.input[token.from..token.to])
    }

    /// Tokens that were found in an input.
    pub(crate) fn new(input: &'a [u8], tokens: Vec<Packed>) -> Self
        requires { AllByRecursion (IsWithin input.now) (map unpacked tokens.items) }
        ensures bytes { result.bytes ≡ input.now }
        ensures tokens { result.tokens ≡ map unpacked tokens.items }
    {
        Tokens { input, tokens }
    }
}
