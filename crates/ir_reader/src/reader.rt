//! A module from the bytes of its text.

ghost use Rattle.std.specs.Prelude.{◌≡◌, IfOk, IfErr, drop};
ghost use Rattle.ir_lex.specs.Tokenized.{placed};
ghost use Rattle.ir_grammar.specs.Spelled.{Spells, refused_at};
ghost use Rattle.ir_reader.specs.ModuleReading.{IsFaultOf, IsRefusedAt};

use crate::fault::ReadFault;
use crate::items::read_items;
use ir_left_out::left_out;
use ir_lex::{Tokens, lex};
use ir_model::Module;
use ir_names::numbered;
use ir_parts::ItemFault;
use std::alloc::Global;

/// The module that the bytes spell.
///
/// `NotInGrammar` and `Unsupported` come only where they spell none: at the first token with which no module goes on,
/// or where all tokens end; `Unsupported` where what stands there is left out by name.
pub fn read_module(alloc: Global, bytes: &[u8]) -> Result<Module, ReadFault>
    ensures spells { IfOk result (λ m. Spells bytes.now m) }
    ensures fault { IfErr result (λ fault. IsFaultOf bytes.now fault) }
{
    let (tokens, end) = lex(alloc, bytes)?;
    let items = match read_items(alloc, &tokens) {
        Ok(items) => items,
        Err(ItemFault::CannotGoOn { at_token }) => {
            return Err(refusal(alloc, &tokens, at_token, end));
        }
        Err(ItemFault::OutOfMemory) => return Err(ReadFault::OutOfMemory),
    };
    if end < bytes.len() {
        return Err(ReadFault::NotInGrammar { at: end });
    }
    Ok(numbered(alloc, &tokens, items)?)
}

/// The refusal of a text at a token, or, where there is none, where the tokens end.
fn refusal(alloc: Global, tokens: &Tokens<'_>, at_token: usize, end: usize) -> ReadFault
    ensures { IsRefusedAt tokens.now at_token end → IsFaultOf tokens.now.bytes result }
{
    match left_out(alloc, tokens, at_token) {
        Ok(Some((number, at))) => ReadFault::Unsupported { word: number, at },
        Ok(None) => ReadFault::NotInGrammar {
            at: place(tokens, at_token, end),
        },
        Err(_) => ReadFault::OutOfMemory,
    }
}

/// The first byte of a token, or, where there is none, the place where the tokens end.
fn place(tokens: &Tokens<'_>, at_token: usize, end: usize) -> usize
    ensures { result ≡ refused_at (drop at_token (placed tokens.now)) end }
{
    match tokens.get(at_token) {
        Some(token) => token.from,
        None => end,
    }
}
