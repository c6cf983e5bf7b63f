//! Names as they are written.

ghost use Rattle.std.specs.Prelude.{◌≡◌, IsTrue, IfOk, Some, None, if◌then◌else◌};
ghost use Rattle.std.specs.Option.{option_map, option_copied};
ghost use Rattle.std.specs.List.{list_all};
ghost use Rattle.ir_text.specs.Bytes.{is_no_quote, is_digit};
ghost use Rattle.ir_text.specs.Names.{is_number};
ghost use Rattle.ir_text.specs.Written.{unescaped};
ghost use Rattle.ir_text.specs.Said.{said, said_global_text, is_string_text, inner_text};
ghost use Rattle.ir_names.specs.Keys.{name_of_key};
ghost use Rattle.ir_names.specs.Meant.{meant, has_escape};

use crate::key::Key;
use ir_lex::unsigned_value;
use ir_model::Text;
use ir_parts::{inner_text, is_number, is_string_text, unescape};
use ir_text::is_word;
use std::alloc::{AllocError, Global};

/// The name of a value or a block that is written; `known` is what its escapes mean.
///
/// A number from 2^128 on, which no token has, counts as out of memory.
#[tactic(auto, unfolding(ir_text::specs::Said::said))]
pub fn said<'a>(written: &'a [u8], known: Option<&'a [u8]>) -> Result<Option<Key<'a>>, AllocError>
    requires { option_copied known ≡ meant written.now }
    ensures { IfOk result (λ name. option_map name_of_key name ≡ said written.now) }
{
    if is_word(written) {
        return Ok(Some(Key::Text(written)));
    }
    if is_number(written) {
        let Some(number) = unsigned_value(written) else {
            return Err(AllocError);
        };
        return Ok(Some(Key::Number(number)));
    }
    match string_bytes(written, known) {
        Some(bytes) => Ok(Some(Key::Text(bytes))),
        None => Ok(None),
    }
}

/// The name of a global that is written.
#[tactic(auto, unfolding(ir_text::specs::Said::said_global_text))]
pub fn said_global<'a>(written: &'a [u8], known: Option<&'a [u8]>) -> Option<&'a [u8]>
    requires { option_copied known ≡ meant written.now }
    ensures { option_copied result ≡ said_global_text written.now }
{
    if is_word(written) {
        return Some(written);
    }
    if is_number(written) {
        return Some(written);
    }
    string_bytes(written, known)
}

/// What the escapes in a string mean, where it has some.
pub fn meant(alloc: Global, written: &[u8]) -> Result<Option<Text>, AllocError>
    ensures { IfOk result (λ bytes. bytes ≡ meant written.now) }
{
    if has_escape(written) {
        let bytes = unescape(alloc, inner_text(written))?;
        Ok(Some(bytes))
    } else {
        Ok(None)
    }
}

#[tactic(auto, using(crate::proofs::Plain::plain_inner))]
fn string_bytes<'a>(written: &'a [u8], known: Option<&'a [u8]>) -> Option<&'a [u8]>
    requires { option_copied known ≡ meant written.now }
    ensures { option_copied result
        ≡ (if is_string_text written.now then Some (unescaped (inner_text written.now)) else None) }
{
    if !is_string_text(written) {
        return None;
    }
    match known {
        Some(bytes) => Some(bytes),
        None => Some(inner_text(written)),
    }
}

fn has_escape(text: &[u8]) -> bool
    ensures { result ≡ has_escape text.now }
{
    text.iter().any(|byte| *byte == b'\\')
}
