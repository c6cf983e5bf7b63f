//! The names of globals, read.

ghost use Rattle.std.specs.Prelude.{◌≡◌, ◌+◌, ◌^◌, ◌<◌, ◌≤◌, length, IfOk, IfSome};
ghost use Rattle.ir_text.specs.Said.{said_global_text, said_global};
ghost use Rattle.ir_parts.specs.Reading.{left_from, first_given, one_at, Reads};

use crate::cursor::next;
use crate::escapes::unescape;
use crate::fault::ItemFault;
use crate::forms::{inner_text, is_number, is_string_text};
use crate::names::behind_first;
use ir_lex::{TokenKind, Tokens};
use ir_model::Text;
use ir_text::is_word;
use sqlite_items::Items;
use std::alloc::{AllocError, Global};

/// The text of the name of a global, `@name`, and the place behind it.
pub fn read_global_name(
    alloc: Global,
    tokens: &Tokens<'_>,
    from: usize,
) -> Result<(Text, usize), ItemFault>
    requires { from ≤ length tokens.now.tokens }
    ensures value { Reads tokens.now result (one_at said_global (left_from tokens.now from)) }
    ensures forth { IfOk result (λ read. (from < read.1) × (read.1 ≤ length tokens.now.tokens)) }
{
    match first_global_name(alloc, tokens, from)? {
        Some(name) => Ok((name, from + 1)),
        None => Err(ItemFault::CannotGoOn { at_token: from }),
    }
}

/// The name that the token at a place says, if it is `@name`.
fn first_global_name(
    alloc: Global,
    tokens: &Tokens<'_>,
    from: usize,
) -> Result<Option<Text>, AllocError>
    ensures value { IfOk result (λ found. first_given said_global (left_from tokens.now from) ≡ found) }
    ensures within { IfOk result (λ found.
        IfSome found (λ _. (from < length tokens.now.tokens) × (from + 1 < 2 ^ 64))) }
{
    match next(tokens, from) {
        Some((kind, text)) => global_name(alloc, kind, text),
        None => Ok(None),
    }
}

/// The name that a token says, if it is `@name`.
#[tactic(auto, unfolding(ir_text::specs::Said::said_global))]
fn global_name(alloc: Global, kind: TokenKind, text: &[u8]) -> Result<Option<Text>, AllocError>
    ensures { IfOk result (λ name. name ≡ said_global (record { kind = kind; text = text.now })) }
{
    if kind == TokenKind::Global && text.starts_with(b"@".as_slice()) {
        global_text(alloc, behind_first(text))
    } else {
        Ok(None)
    }
}

#[tactic(auto, unfolding(ir_text::specs::Said::said_global_text))]
fn global_text(alloc: Global, written: &[u8]) -> Result<Option<Text>, AllocError>
    ensures { IfOk result (λ name. name ≡ said_global_text written.now) }
{
    if is_word(written) {
        return Ok(Some(Items::from_slice(alloc, written)?));
    }
    if is_number(written) {
        return Ok(Some(Items::from_slice(alloc, written)?));
    }
    if is_string_text(written) {
        return Ok(Some(unescape(alloc, inner_text(written))?));
    }
    Ok(None)
}
