//! Initialisers: what globals hold at the start.

ghost use Rattle.std.specs.Prelude.{◌≡◌, ◌+◌, ◌^◌, ◌<◌, ◌≤◌, length, IfOk, IfSome, IsTrue};
ghost use Rattle.ir_parts.specs.Reading.{left_from, begins, first_given, one_at, is_punctuation, punctuation_at, ◌▷◌, Reads};
ghost use Rattle.ir_parts.specs.ListReading.{with_commas_at};
ghost use Rattle.ir_items.specs.InitReading.{is_byte_text, is_byte_string, byte_string, bytes_init_at, zero_init_at, literal_init_at, word_init_at, plain_init_at, part_at, more_parts_at, list_at, init_at};

use crate::literal::literal;
use ir_lex::{TokenKind, Tokens};
use ir_model::{Init, InitPart, Text};
use ir_parts::{
    ItemFault, behind_keyword, behind_sign, inner_text, is_string_text, next, read_stored_type,
    starts_keyword, starts_sign, unescape,
};
use sqlite_items::{Boxed, Items};
use std::alloc::{AllocError, Global};

/// How many lists may stand one within another: the memory that is kept for nesting.
const MOST_NESTED: usize = 1024;

/// An initialiser: a literal, `zeroinitializer`, a byte string, or a list of parts in brackets.
pub(crate) fn initialiser(
    alloc: Global,
    tokens: &Tokens<'_>,
    from: usize,
) -> Result<(Init, usize), ItemFault>
    requires { from ≤ length tokens.now.tokens }
    ensures value { Reads tokens.now result (init_at (left_from tokens.now from)) }
    ensures forth { IfOk result (λ read. (from < read.1) × (read.1 ≤ length tokens.now.tokens)) }
{
    nested(alloc, tokens, from, MOST_NESTED)
}

/// An initialiser, in which at most so many lists stand one within another.
#[cycle(initialisers)]
fn nested(
    alloc: Global,
    tokens: &Tokens<'_>,
    from: usize,
    room: usize,
) -> Result<(Init, usize), ItemFault>
    requires { from ≤ length tokens.now.tokens }
    ensures value { Reads tokens.now result (init_at (left_from tokens.now from)) }
    ensures forth { IfOk result (λ read. (from < read.1) × (read.1 ≤ length tokens.now.tokens)) }
{
    if !starts_sign(tokens, from, b'[') {
        plain(alloc, tokens, from)
    } else if room == 0 {
        Err(ItemFault::OutOfMemory)
    } else {
        list(alloc, tokens, from, room - 1)
    }
}

/// `[ type init, .. ]`.
#[cycle(initialisers)]
#[tactic(auto, unfolding(crate::specs::InitReading::list_at))]
fn list(
    alloc: Global,
    tokens: &Tokens<'_>,
    from: usize,
    room: usize,
) -> Result<(Init, usize), ItemFault>
    requires { from ≤ length tokens.now.tokens }
    ensures value { Reads tokens.now result (list_at init_at (left_from tokens.now from)) }
    ensures forth { IfOk result (λ read. (from < read.1) × (read.1 ≤ length tokens.now.tokens)) }
{
    let at = behind_sign(tokens, from, b'[')?;
    let (parts, at) = parts(alloc, tokens, at, room)?;
    let at = behind_sign(tokens, at, b']')?;
    Ok((Init::List(parts), at))
}

/// One part or more, with commas between them.
#[cycle(initialisers)]
#[tactic(auto, unfolding(ir_parts::specs::ListReading::with_commas_at, crate::specs::InitReading::more_parts_at))]
fn parts(
    alloc: Global,
    tokens: &Tokens<'_>,
    from: usize,
    room: usize,
) -> Result<(Items<InitPart>, usize), ItemFault>
    requires { from ≤ length tokens.now.tokens }
    ensures value { Reads tokens.now result (with_commas_at (part_at init_at) (left_from tokens.now from)) }
    ensures forth { IfOk result (λ read. (from < read.1) × (read.1 ≤ length tokens.now.tokens)) }
{
    let (first, at) = part(alloc, tokens, from, room)?;
    let (more, at) = more_parts(alloc, tokens, at, room)?;
    let mut parts = Items::new(alloc);
    parts.push(first)?;
    parts.append(more)?;
    Ok((parts, at))
}

/// Parts, each behind a comma.
#[cycle(initialisers)]
fn more_parts(
    alloc: Global,
    tokens: &Tokens<'_>,
    from: usize,
    room: usize,
) -> Result<(Items<InitPart>, usize), ItemFault>
    requires { from ≤ length tokens.now.tokens }
    ensures value { Reads tokens.now result (more_parts_at init_at (left_from tokens.now from)) }
    ensures forth { IfOk result (λ read. (from ≤ read.1) × (read.1 ≤ length tokens.now.tokens)) }
{
    let mut parts = Items::new(alloc);
    let mut at = from;
    'parts: while starts_sign(tokens, at, b',') {
        let (next, behind) = next_part(alloc, tokens, at, room)?;
        parts.push(next)?;
        at = behind;
    }
    Ok((parts, at))
}

/// A comma and a part.
#[cycle(initialisers)]
fn next_part(
    alloc: Global,
    tokens: &Tokens<'_>,
    from: usize,
    room: usize,
) -> Result<(InitPart, usize), ItemFault>
    requires { from ≤ length tokens.now.tokens }
    ensures value { Reads tokens.now result ((punctuation_at 44 ▷ part_at init_at) (left_from tokens.now from)) }
    ensures forth { IfOk result (λ read. (from < read.1) × (read.1 ≤ length tokens.now.tokens)) }
{
    let at = behind_sign(tokens, from, b',')?;
    part(alloc, tokens, at, room)
}

/// A type and an initialiser.
#[cycle(initialisers)]
#[tactic(auto, unfolding(crate::specs::InitReading::part_at))]
fn part(
    alloc: Global,
    tokens: &Tokens<'_>,
    from: usize,
    room: usize,
) -> Result<(InitPart, usize), ItemFault>
    requires { from ≤ length tokens.now.tokens }
    ensures value { Reads tokens.now result (part_at init_at (left_from tokens.now from)) }
    ensures forth { IfOk result (λ read. (from < read.1) × (read.1 ≤ length tokens.now.tokens)) }
{
    let (kind, at) = read_stored_type(alloc, tokens, from)?;
    let (value, at) = nested(alloc, tokens, at, room)?;
    let init = Boxed::new(alloc, value)?;
    Ok((InitPart { kind, init }, at))
}

/// An initialiser that is no list.
#[tactic(auto, unfolding(crate::specs::InitReading::plain_init_at))]
fn plain(alloc: Global, tokens: &Tokens<'_>, from: usize) -> Result<(Init, usize), ItemFault>
    requires { from ≤ length tokens.now.tokens }
    ensures value { Reads tokens.now result (plain_init_at (left_from tokens.now from)) }
    ensures forth { IfOk result (λ read. (from < read.1) × (read.1 ≤ length tokens.now.tokens)) }
{
    if starts_byte_string(tokens, from) {
        bytes(alloc, tokens, from)
    } else {
        word(tokens, from)
    }
}

#[tactic(auto, unfolding(crate::specs::InitReading::word_init_at))]
fn word(tokens: &Tokens<'_>, from: usize) -> Result<(Init, usize), ItemFault>
    requires { from ≤ length tokens.now.tokens }
    ensures value { Reads tokens.now result (word_init_at (left_from tokens.now from)) }
    ensures forth { IfOk result (λ read. (from < read.1) × (read.1 ≤ length tokens.now.tokens)) }
{
    if starts_keyword(tokens, from, b"zeroinitializer") {
        zero(tokens, from)
    } else {
        literal_value(tokens, from)
    }
}

#[tactic(auto, unfolding(crate::specs::InitReading::zero_init_at))]
fn zero(tokens: &Tokens<'_>, from: usize) -> Result<(Init, usize), ItemFault>
    requires { from ≤ length tokens.now.tokens }
    ensures value { Reads tokens.now result (zero_init_at (left_from tokens.now from)) }
    ensures forth { IfOk result (λ read. (from < read.1) × (read.1 ≤ length tokens.now.tokens)) }
{
    let at = behind_keyword(tokens, from, b"zeroinitializer")?;
    Ok((Init::Zero, at))
}

#[tactic(auto, unfolding(crate::specs::InitReading::literal_init_at))]
fn literal_value(tokens: &Tokens<'_>, from: usize) -> Result<(Init, usize), ItemFault>
    requires { from ≤ length tokens.now.tokens }
    ensures value { Reads tokens.now result (literal_init_at (left_from tokens.now from)) }
    ensures forth { IfOk result (λ read. (from < read.1) × (read.1 ≤ length tokens.now.tokens)) }
{
    let (value, at) = literal(tokens, from)?;
    Ok((Init::Literal(value), at))
}

#[tactic(auto, unfolding(crate::specs::InitReading::bytes_init_at))]
fn bytes(alloc: Global, tokens: &Tokens<'_>, from: usize) -> Result<(Init, usize), ItemFault>
    requires { from ≤ length tokens.now.tokens }
    ensures value { Reads tokens.now result (bytes_init_at (left_from tokens.now from)) }
    ensures forth { IfOk result (λ read. (from < read.1) × (read.1 ≤ length tokens.now.tokens)) }
{
    let (text, at) = byte_string(alloc, tokens, from)?;
    Ok((Init::Bytes(text), at))
}

/// The bytes that a byte string means.
fn byte_string(alloc: Global, tokens: &Tokens<'_>, from: usize) -> Result<(Text, usize), ItemFault>
    requires { from ≤ length tokens.now.tokens }
    ensures value { Reads tokens.now result (one_at byte_string (left_from tokens.now from)) }
    ensures forth { IfOk result (λ read. (from < read.1) × (read.1 ≤ length tokens.now.tokens)) }
{
    match first_bytes(alloc, tokens, from)? {
        Some(text) => Ok((text, from + 1)),
        None => Err(ItemFault::CannotGoOn { at_token: from }),
    }
}

fn first_bytes(alloc: Global, tokens: &Tokens<'_>, from: usize) -> Result<Option<Text>, AllocError>
    ensures value { IfOk result (λ found. first_given byte_string (left_from tokens.now from) ≡ found) }
    ensures within { IfOk result (λ found.
        IfSome found (λ _. (from < length tokens.now.tokens) × (from + 1 < 2 ^ 64))) }
{
    match next(tokens, from) {
        Some((TokenKind::Quoted, text)) if is_byte_text(text) => {
            let bytes = unescape(alloc, inner_text(&text[1..]))?;
            Ok(Some(bytes))
        }
        _ => Ok(None),
    }
}

fn starts_byte_string(tokens: &Tokens<'_>, from: usize) -> bool
    ensures { result ≡ begins is_byte_string (left_from tokens.now from) }
{
    match next(tokens, from) {
        Some((TokenKind::Quoted, text)) => is_byte_text(text),
        _ => false,
    }
}

/// Whether a text is a `c` and a string.
#[tactic(auto, unfolding(crate::specs::InitReading::is_byte_text))]
fn is_byte_text(text: &[u8]) -> bool
    ensures value { result ≡ is_byte_text text.now }
    ensures some { IsTrue result → 0 < length text.now }
{
    text.starts_with(b"c".as_slice()) && is_string_text(&text[1..])
}
