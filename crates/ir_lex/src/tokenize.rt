//! The tokens of an input, one after another.

ghost use Rattle.std.specs.Prelude.{◌≡◌, IfOk, IfErr};
ghost use Rattle.ir_text.specs.Tokens.{AreLexemes, Lexed};
ghost use Rattle.ir_lex.specs.InOrder.{AreInOrder};
ghost use Rattle.ir_lex.specs.Tokenized.{lexemes, placed};
ghost use Rattle.ir_lex.specs.Bad.{IsBadFor};

use crate::error::LexError;
use crate::first_token::first_token;
use crate::gap::gap_len;
use crate::list::Tokens;
use crate::packed::Packed;
use ir_text::Token;
use std::alloc::{AllocError, Global};

/// The tokens of an input, which they borrow.
///
/// `BadByte` comes exactly where a byte begins no token, comment or blank, for the first such byte; `OutOfMemory`
/// where there is no memory for the list, or a token ends past 4 GiB.
pub fn tokens(alloc: Global, input: &[u8]) -> Result<Tokens<'_>, LexError>
    ensures input { IfOk result (λ t. t.bytes ≡ input.now) }
    ensures lexemes { IfOk result (λ t. AreLexemes input.now (lexemes t)) }
    ensures in_order { IfOk result (λ t. AreInOrder input.now 0 t.tokens) }
    ensures bad { IfErr result (IsBadFor input.now) }
{
    let Ok((found, end)) = lex(alloc, input) else {
        return Err(LexError::OutOfMemory);
    };
    if end < input.len() {
        return Err(LexError::BadByte { at: end });
    }
    Ok(found)
}

/// The tokens of an input up to its first bad byte, or all of them, and the place where they end.
///
/// In `a ~` that is the word `a`, and the place 2, of the `~`, with which nothing begins. Where every byte belongs to
/// a token, a comment or a blank, the place is the input's length.
///
/// The error comes only where there is no memory for the list, or a token ends past 4 GiB. Time linear in the input,
/// apart from the memory.
pub fn lex(alloc: Global, input: &[u8]) -> Result<(Tokens<'_>, usize), AllocError>
    ensures input { IfOk result (λ lexed. lexed.0.bytes ≡ input.now) }
    ensures lexed { IfOk result (λ lexed. Lexed 0 input.now (placed lexed.0) lexed.1) }
    ensures in_order { IfOk result (λ lexed. AreInOrder input.now 0 lexed.0.tokens) }
{
    let mut found = Vec::new(alloc);
    let mut end = 0;
    loop {
        let from = end + gap_len(&input[end..]);
        if from == input.len() {
            return Ok((Tokens::new(input, found), input.len()));
        }
        let Some((kind, len)) = first_token(&input[from..]) else {
            return Ok((Tokens::new(input, found), from));
        };
        let to = from + len;
        let Some(token) = Packed::pack(Token { kind, from, to }) else {
            return Err(AllocError);
        };
        if found.push(token).is_err() {
            return Err(AllocError);
        }
        end = to;
    }
}
