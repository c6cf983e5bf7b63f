//! Types, where a place takes some kinds of them. A kind that isn't taken is refused at its first token.

ghost use Rattle.std.specs.Prelude.{◌≡◌, ◌+◌, ◌^◌, ◌<◌, ◌≤◌, length, IfOk, IfSome};
ghost use Rattle.ir_parts.specs.Reading.{left_from, first_given, one_at, Reads, Passes};
ghost use Rattle.ir_parts.specs.TypeReading.{int_width, dimension, int_at, dimension_at, dimensions_at, closings_at, array_at, pointer_at, void_at, int_type_at, stored_type_at, scalar_type_at, returned_type_at, type_at};

use crate::cursor::{behind_keyword, behind_sign, next, starts_keyword, starts_sign};
use crate::fault::ItemFault;
use crate::numbers::{dimension_of, int_width_of};
use ir_lex::{TokenKind, Tokens};
use ir_model::IrType;
use sqlite_items::Items;
use std::alloc::Global;

/// A type of any kind.
#[tactic(auto, unfolding(crate::specs::TypeReading::type_at))]
pub(crate) fn any_type(
    alloc: Global,
    tokens: &Tokens<'_>,
    from: usize,
) -> Result<(IrType, usize), ItemFault>
    requires { from ≤ length tokens.now.tokens }
    ensures value { Reads tokens.now result (type_at (left_from tokens.now from)) }
    ensures forth { IfOk result (λ read. (from < read.1) × (read.1 ≤ length tokens.now.tokens)) }
{
    if starts_sign(tokens, from, b'[') {
        array(alloc, tokens, from)
    } else {
        returned_type(tokens, from)
    }
}

/// A type of integers, `ptr` or `void`.
#[tactic(auto, unfolding(crate::specs::TypeReading::returned_type_at))]
pub(crate) fn returned_type(tokens: &Tokens<'_>, from: usize) -> Result<(IrType, usize), ItemFault>
    requires { from ≤ length tokens.now.tokens }
    ensures value { Reads tokens.now result (returned_type_at (left_from tokens.now from)) }
    ensures forth { IfOk result (λ read. (from < read.1) × (read.1 ≤ length tokens.now.tokens)) }
{
    if starts_keyword(tokens, from, b"void") {
        void(tokens, from)
    } else {
        scalar_type(tokens, from)
    }
}

/// A type of integers, or `ptr`.
#[tactic(auto, unfolding(crate::specs::TypeReading::scalar_type_at))]
pub(crate) fn scalar_type(tokens: &Tokens<'_>, from: usize) -> Result<(IrType, usize), ItemFault>
    requires { from ≤ length tokens.now.tokens }
    ensures value { Reads tokens.now result (scalar_type_at (left_from tokens.now from)) }
    ensures forth { IfOk result (λ read. (from < read.1) × (read.1 ≤ length tokens.now.tokens)) }
{
    if starts_keyword(tokens, from, b"ptr") {
        pointer(tokens, from)
    } else {
        int_type(tokens, from)
    }
}

/// A type of integers, or an array.
#[tactic(auto, unfolding(crate::specs::TypeReading::stored_type_at))]
pub(crate) fn stored_type(
    alloc: Global,
    tokens: &Tokens<'_>,
    from: usize,
) -> Result<(IrType, usize), ItemFault>
    requires { from ≤ length tokens.now.tokens }
    ensures value { Reads tokens.now result (stored_type_at (left_from tokens.now from)) }
    ensures forth { IfOk result (λ read. (from < read.1) × (read.1 ≤ length tokens.now.tokens)) }
{
    if starts_sign(tokens, from, b'[') {
        array(alloc, tokens, from)
    } else {
        int_type(tokens, from)
    }
}

/// A type of integers.
#[tactic(auto, unfolding(crate::specs::TypeReading::int_type_at))]
pub(crate) fn int_type(tokens: &Tokens<'_>, from: usize) -> Result<(IrType, usize), ItemFault>
    requires { from ≤ length tokens.now.tokens }
    ensures value { Reads tokens.now result (int_type_at (left_from tokens.now from)) }
    ensures forth { IfOk result (λ read. (from < read.1) × (read.1 ≤ length tokens.now.tokens)) }
{
    let (width, at) = int(tokens, from)?;
    Ok((IrType::Int(width), at))
}

#[tactic(auto, unfolding(crate::specs::TypeReading::pointer_at))]
fn pointer(tokens: &Tokens<'_>, from: usize) -> Result<(IrType, usize), ItemFault>
    requires { from ≤ length tokens.now.tokens }
    ensures value { Reads tokens.now result (pointer_at (left_from tokens.now from)) }
    ensures forth { IfOk result (λ read. (from < read.1) × (read.1 ≤ length tokens.now.tokens)) }
{
    let at = behind_keyword(tokens, from, b"ptr")?;
    Ok((IrType::Ptr, at))
}

#[tactic(auto, unfolding(crate::specs::TypeReading::void_at))]
fn void(tokens: &Tokens<'_>, from: usize) -> Result<(IrType, usize), ItemFault>
    requires { from ≤ length tokens.now.tokens }
    ensures value { Reads tokens.now result (void_at (left_from tokens.now from)) }
    ensures forth { IfOk result (λ read. (from < read.1) × (read.1 ≤ length tokens.now.tokens)) }
{
    let at = behind_keyword(tokens, from, b"void")?;
    Ok((IrType::Void, at))
}

/// `iN`.
fn int(tokens: &Tokens<'_>, from: usize) -> Result<(u32, usize), ItemFault>
    requires { from ≤ length tokens.now.tokens }
    ensures value { Reads tokens.now result (int_at (left_from tokens.now from)) }
    ensures forth { IfOk result (λ read. (from < read.1) × (read.1 ≤ length tokens.now.tokens)) }
{
    match first_width(tokens, from) {
        Some(width) => Ok((width, from + 1)),
        None => Err(ItemFault::CannotGoOn { at_token: from }),
    }
}

fn first_width(tokens: &Tokens<'_>, from: usize) -> Option<u32>
    ensures value { result ≡ first_given int_width (left_from tokens.now from) }
    ensures within { IfSome result (λ _. (from < length tokens.now.tokens) × (from + 1 < 2 ^ 64)) }
{
    match next(tokens, from) {
        Some((TokenKind::Word, text)) => int_width_of(text),
        _ => None,
    }
}

/// `[ d x` for each dimension, iN, and a `]` for each.
#[tactic(auto, unfolding(crate::specs::TypeReading::array_at))]
fn array(alloc: Global, tokens: &Tokens<'_>, from: usize) -> Result<(IrType, usize), ItemFault>
    requires { from ≤ length tokens.now.tokens }
    ensures value { Reads tokens.now result (array_at (left_from tokens.now from)) }
    ensures forth { IfOk result (λ read. (from < read.1) × (read.1 ≤ length tokens.now.tokens)) }
{
    let (dims, at) = dimensions(alloc, tokens, from)?;
    let (width, at) = int(tokens, at)?;
    let at = closings(tokens, at, dims.len())?;
    Ok((IrType::Array(dims, width), at))
}

/// `[ d x` as often as it stands there.
fn dimensions(
    alloc: Global,
    tokens: &Tokens<'_>,
    from: usize,
) -> Result<(Items<u64>, usize), ItemFault>
    requires { from ≤ length tokens.now.tokens }
    ensures value { Reads tokens.now result (dimensions_at (left_from tokens.now from)) }
    ensures forth { IfOk result (λ read. (from ≤ read.1) × (read.1 ≤ length tokens.now.tokens)) }
{
    let mut dims = Items::new(alloc);
    let mut at = from;
    while starts_sign(tokens, at, b'[') {
        let (next, behind) = dimension(tokens, at)?;
        dims.push(next)?;
        at = behind;
    }
    Ok((dims, at))
}

/// `[ d x`.
#[tactic(auto, unfolding(crate::specs::TypeReading::dimension_at))]
fn dimension(tokens: &Tokens<'_>, from: usize) -> Result<(u64, usize), ItemFault>
    requires { from ≤ length tokens.now.tokens }
    ensures value { Reads tokens.now result (dimension_at (left_from tokens.now from)) }
    ensures forth { IfOk result (λ read. (from < read.1) × (read.1 ≤ length tokens.now.tokens)) }
{
    let at = behind_sign(tokens, from, b'[')?;
    let (dimension, at) = number(tokens, at)?;
    let at = behind_keyword(tokens, at, b"x")?;
    Ok((dimension, at))
}

/// A numeral from 0 to 2^64 - 1.
fn number(tokens: &Tokens<'_>, from: usize) -> Result<(u64, usize), ItemFault>
    requires { from ≤ length tokens.now.tokens }
    ensures value { Reads tokens.now result (one_at dimension (left_from tokens.now from)) }
    ensures forth { IfOk result (λ read. (from < read.1) × (read.1 ≤ length tokens.now.tokens)) }
{
    match first_number(tokens, from) {
        Some(number) => Ok((number, from + 1)),
        None => Err(ItemFault::CannotGoOn { at_token: from }),
    }
}

fn first_number(tokens: &Tokens<'_>, from: usize) -> Option<u64>
    ensures value { result ≡ first_given dimension (left_from tokens.now from) }
    ensures within { IfSome result (λ _. (from < length tokens.now.tokens) × (from + 1 < 2 ^ 64)) }
{
    match next(tokens, from) {
        Some((TokenKind::Numeral, text)) => dimension_of(text),
        _ => None,
    }
}

/// So many `]`.
#[tactic(auto, unfolding(crate::specs::TypeReading::closings_at))]
fn closings(tokens: &Tokens<'_>, from: usize, count: usize) -> Result<usize, ItemFault>
    requires { from ≤ length tokens.now.tokens }
    ensures value { Passes tokens.now result (closings_at count (left_from tokens.now from)) }
    ensures forth { IfOk result (λ at. (from ≤ at) × (at ≤ length tokens.now.tokens)) }
{
    let mut at = from;
    for _i in 0..count {
        at = behind_sign(tokens, at, b']')?;
    }
    Ok(at)
}
