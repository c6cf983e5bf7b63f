//! Switches and `unreachable`, from behind their opcode, with the attachments behind them.

ghost use Rattle.std.specs.Prelude.{◌≡◌, ◌+◌, ◌^◌, ◌<◌, ◌≤◌, length, IfOk, IfErr, IfSome, IsTrue, Some, None, ℤ};
ghost use Rattle.std.specs.Str.Parse.{signed_digits_value};
ghost use Rattle.ir_parts.specs.declared.fault.ItemFault.TheVariants.{OutOfMemory};
ghost use Rattle.ir_parts.specs.Reading.{left_from, first_given, begins, Reads, ReadsAs};
ghost use Rattle.ir_parts.specs.Places.{mentions_at};
ghost use Rattle.ir_body.specs.Cases.{number_word, number_of, number_at, number_or_fault, case_at, begins_scalar, cases_at, switch_at, unreachable_at};
ghost use Rattle.ir_text.specs.Sites.{bare_case};
ghost use Rattle.ir_body.specs.Operation.{attached};
ghost use Rattle.ir_body.specs.Views.{bare_operation, operation_sites, case_sites, bare_cases, cases_sites};

use crate::operands::{read_target, read_typed};
use crate::operation::Operation;
use ir_lex::{TokenKind, Tokens, signed_value};
use ir_model::{Case, Op};
use ir_parts::{
    ItemFault, behind_sign, int_width_of, is_signed_number, next, read_scalar_type, skip_metadata,
};
use sqlite_items::Items;
use std::alloc::Global;

/// An operand with its type, a target, cases in brackets, and attachments.
#[tactic(auto, unfolding(crate::specs::Cases::switch_at), using(crate::proofs::Told::told))]
pub(crate) fn read_switch(
    alloc: Global,
    tokens: &Tokens<'_>,
    from: usize,
) -> Result<(Operation, usize), ItemFault>
    requires { from ≤ length tokens.now.tokens }
    ensures value { ReadsAs (λ x. (bare_operation x, mentions_at tokens.now (operation_sites x))) tokens.now result
        (attached switch_at (left_from tokens.now from)) }
    ensures forth { IfOk result (λ read. (from < read.1) × (read.1 ≤ length tokens.now.tokens)) }
{
    let (typed, at) = read_typed(tokens, from)?;
    let at = behind_sign(tokens, at, b',')?;
    let (other, at) = read_target(tokens, at)?;
    let at = behind_sign(tokens, at, b'[')?;
    let (cases, at) = read_cases(alloc, tokens, at)?;
    let at = behind_sign(tokens, at, b']')?;
    let at = skip_metadata(alloc, tokens, at)?;
    let op = Op::Switch {
        kind: typed.kind,
        value: typed.value,
        other,
        cases,
    };
    let words = Items::new(alloc);
    Ok((Operation { op, words }, at))
}

/// As many cases as stand there.
fn read_cases(
    alloc: Global,
    tokens: &Tokens<'_>,
    from: usize,
) -> Result<(Items<Case>, usize), ItemFault>
    requires { from ≤ length tokens.now.tokens }
    ensures value { ReadsAs (λ cases. (bare_cases cases, mentions_at tokens.now (cases_sites cases))) tokens.now result
        (cases_at (left_from tokens.now from)) }
    ensures forth { IfOk result (λ read. (from ≤ read.1) × (read.1 ≤ length tokens.now.tokens)) }
{
    let mut cases = Items::new(alloc);
    let mut at = from;
    while starts_scalar(tokens, at) {
        let (next, behind) = read_case(tokens, at)?;
        cases.push(next)?;
        at = behind;
    }
    Ok((cases, at))
}

/// A type, a number, and a target.
#[tactic(auto, unfolding(crate::specs::Cases::case_at), using(crate::proofs::Told::told))]
fn read_case(tokens: &Tokens<'_>, from: usize) -> Result<(Case, usize), ItemFault>
    requires { from ≤ length tokens.now.tokens }
    ensures value { ReadsAs (λ c. (bare_case c, mentions_at tokens.now (case_sites c))) tokens.now result
        (case_at (left_from tokens.now from)) }
    ensures forth { IfOk result (λ read. (from < read.1) × (read.1 ≤ length tokens.now.tokens)) }
{
    let (kind, at) = read_scalar_type(tokens, from)?;
    let (number, at) = read_number(tokens, at)?;
    let at = behind_sign(tokens, at, b',')?;
    let (to, at) = read_target(tokens, at)?;
    Ok((Case { kind, number, to }, at))
}

/// Whether a type of integers or `ptr` stands there.
fn starts_scalar(tokens: &Tokens<'_>, from: usize) -> bool
    ensures value { result ≡ begins begins_scalar (left_from tokens.now from) }
{
    match next(tokens, from) {
        Some((TokenKind::Word, text)) => {
            text == b"ptr".as_slice() || int_width_of(text).is_some()
        }
        _ => false,
    }
}

/// A number: a numeral, `true` or `false`.
///
/// A numeral that doesn't fit 128 signed bits counts as want of memory; no lexer gives one.
#[tactic(auto, unfolding(crate::specs::Cases::number_at))]
fn read_number(tokens: &Tokens<'_>, from: usize) -> Result<(i128, usize), ItemFault>
    requires { from ≤ length tokens.now.tokens }
    ensures value { Reads tokens.now result (number_at (left_from tokens.now from)) }
    ensures forth { IfOk result (λ read. (from < read.1) × (read.1 ≤ length tokens.now.tokens)) }
{
    let found = first_number(tokens, from)?;
    number_or_fault(found, from)
}

/// The number with the place behind it, or where none stands.
fn number_or_fault(found: Option<i128>, from: usize) -> Result<(i128, usize), ItemFault>
    requires { IfSome found (λ _. from + 1 < 2 ^ 64) }
    ensures { result ≡ number_or_fault found from }
{
    match found {
        Some(number) => Ok((number, from + 1)),
        None => Err(ItemFault::CannotGoOn { at_token: from }),
    }
}

fn first_number(tokens: &Tokens<'_>, from: usize) -> Result<Option<i128>, ItemFault>
    ensures value { IfOk result (λ found. first_given number_of (left_from tokens.now from) ≡ found) }
    ensures within { IfOk result (λ found.
        IfSome found (λ _. (from < length tokens.now.tokens) × (from + 1 < 2 ^ 64))) }
    ensures large { IfErr result (λ fault. fault ≡ OutOfMemory) }
{
    match next(tokens, from) {
        Some((TokenKind::Numeral, text)) => match numeral(text) {
            Some(number) => Ok(Some(number)),
            None => Err(ItemFault::OutOfMemory),
        },
        Some((TokenKind::Word, text)) => Ok(word_number(text)),
        _ => Ok(None),
    }
}

fn numeral(text: &[u8]) -> Option<i128>
    ensures { IfSome result (λ number. number ≡ signed_digits_value 10 text.now) }
{
    if is_signed_number(text) {
        signed_value(text)
    } else {
        None
    }
}

#[tactic(auto, unfolding(crate::specs::Cases::number_word))]
fn word_number(text: &[u8]) -> Option<i128>
    ensures { result ≡ number_word text.now }
{
    if text == b"true".as_slice() {
        Some(1)
    } else if text == b"false".as_slice() {
        Some(0)
    } else {
        None
    }
}

/// Nothing but attachments.
#[tactic(auto, unfolding(crate::specs::Cases::unreachable_at))]
pub(crate) fn read_unreachable(
    alloc: Global,
    tokens: &Tokens<'_>,
    from: usize,
) -> Result<(Operation, usize), ItemFault>
    requires { from ≤ length tokens.now.tokens }
    ensures value { ReadsAs (λ x. (bare_operation x, mentions_at tokens.now (operation_sites x))) tokens.now result
        (attached unreachable_at (left_from tokens.now from)) }
    ensures forth { IfOk result (λ read. (from ≤ read.1) × (read.1 ≤ length tokens.now.tokens)) }
{
    let at = skip_metadata(alloc, tokens, from)?;
    let op = Op::Unreachable;
    let words = Items::new(alloc);
    Ok((Operation { op, words }, at))
}
