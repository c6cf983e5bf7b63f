//! The pieces of runs of passed-on words.

ghost use Rattle.std.specs.Prelude.{◌≡◌, ◌+◌, ◌^◌, ◌<◌, ◌≤◌, length, IfOk, IfSome, IsTrue};
ghost use Rattle.ir_parts.specs.Reading.{left_from, begins, first_given, one_at, token_at, Reads, Passes};
ghost use Rattle.ir_parts.specs.WordsReading.{is_passed, is_string_token, is_group_text, is_group, passed_word, parentheses_at, is_numeral, bracketed_at, numeral_if_any_at, numeral_or_nothing_at, behind_word_at, word_piece_at, value_at, paired_at, string_piece_at, group_at, other_piece_at, plain_piece_at, piece_at, begins_piece};

use crate::brackets::behind_brackets;
use crate::cursor::{behind_sign, next, starts_sign};
use crate::ending::{Ending, Run};
use crate::fault::ItemFault;
use crate::forms::{is_signed_number, is_string_text};
use crate::passed_words::{is_passed_text, word_says};
use ir_lex::{TokenKind, Tokens};
use std::alloc::Global;

/// One piece of a run.
#[tactic(auto, unfolding(crate::specs::WordsReading::piece_at))]
pub(crate) fn piece(
    alloc: Global,
    tokens: &Tokens<'_>,
    from: usize,
) -> Result<(Run, usize), ItemFault>
    requires { from ≤ length tokens.now.tokens }
    ensures value { Reads tokens.now result (piece_at (left_from tokens.now from)) }
    ensures forth { IfOk result (λ read. (from < read.1) × (read.1 ≤ length tokens.now.tokens)) }
{
    if starts_passed(tokens, from) {
        word_piece(alloc, tokens, from)
    } else {
        plain_piece(tokens, from)
    }
}

// ---- words, and what belongs to them

#[tactic(auto, unfolding(crate::specs::WordsReading::word_piece_at))]
fn word_piece(alloc: Global, tokens: &Tokens<'_>, from: usize) -> Result<(Run, usize), ItemFault>
    requires { from ≤ length tokens.now.tokens }
    ensures value { Reads tokens.now result (word_piece_at (left_from tokens.now from)) }
    ensures forth { IfOk result (λ read. (from < read.1) × (read.1 ≤ length tokens.now.tokens)) }
{
    let (says, at) = word(tokens, from)?;
    let (ending, at) = behind_word(alloc, tokens, at, says.1)?;
    Ok((
        Run {
            external: says.0,
            ending: ending,
        },
        at,
    ))
}

fn word(tokens: &Tokens<'_>, from: usize) -> Result<((bool, bool), usize), ItemFault>
    requires { from ≤ length tokens.now.tokens }
    ensures value { Reads tokens.now result (one_at passed_word (left_from tokens.now from)) }
    ensures forth { IfOk result (λ read. (from < read.1) × (read.1 ≤ length tokens.now.tokens)) }
{
    match first_word(tokens, from) {
        Some(says) => Ok((says, from + 1)),
        None => Err(ItemFault::CannotGoOn { at_token: from }),
    }
}

fn first_word(tokens: &Tokens<'_>, from: usize) -> Option<(bool, bool)>
    ensures value { result ≡ first_given passed_word (left_from tokens.now from) }
    ensures within { IfSome result (λ _. (from < length tokens.now.tokens) × (from + 1 < 2 ^ 64)) }
{
    match next(tokens, from) {
        Some((TokenKind::Word, text)) if is_passed_text(text) => Some(word_says(text)),
        _ => None,
    }
}

/// What belongs to a word: how the two end, and the place behind it.
#[tactic(auto, unfolding(crate::specs::WordsReading::behind_word_at))]
fn behind_word(
    alloc: Global,
    tokens: &Tokens<'_>,
    from: usize,
    takes_numeral: bool,
) -> Result<(Ending, usize), ItemFault>
    requires { from ≤ length tokens.now.tokens }
    ensures value { Reads tokens.now result (behind_word_at takes_numeral (left_from tokens.now from)) }
    ensures forth { IfOk result (λ read. (from ≤ read.1) × (read.1 ≤ length tokens.now.tokens)) }
{
    if starts_sign(tokens, from, b'(') {
        bracketed(alloc, tokens, from)
    } else {
        numeral_or_nothing(tokens, from, takes_numeral)
    }
}

#[tactic(auto, unfolding(crate::specs::WordsReading::bracketed_at))]
fn bracketed(alloc: Global, tokens: &Tokens<'_>, from: usize) -> Result<(Ending, usize), ItemFault>
    requires { from ≤ length tokens.now.tokens }
    ensures value { Reads tokens.now result (bracketed_at (left_from tokens.now from)) }
    ensures forth { IfOk result (λ read. (from < read.1) × (read.1 ≤ length tokens.now.tokens)) }
{
    let at = parentheses(alloc, tokens, from)?;
    Ok((Ending::Closed, at))
}

/// The place behind `( .. )`, whatever stands within, where its brackets match. A fault stands at the first token with
/// which no such text goes on; memory is taken for the brackets that are open.
#[tactic(auto, unfolding(crate::specs::WordsReading::parentheses_at))]
pub fn parentheses(alloc: Global, tokens: &Tokens<'_>, from: usize) -> Result<usize, ItemFault>
    requires { from ≤ length tokens.now.tokens }
    ensures value { Passes tokens.now result (parentheses_at (left_from tokens.now from)) }
    ensures forth { IfOk result (λ at. (from < at) × (at ≤ length tokens.now.tokens)) }
{
    let at = behind_sign(tokens, from, b'(')?;
    behind_brackets(alloc, tokens, at, b')')
}

#[tactic(auto, unfolding(crate::specs::WordsReading::numeral_or_nothing_at))]
fn numeral_or_nothing(
    tokens: &Tokens<'_>,
    from: usize,
    takes_numeral: bool,
) -> Result<(Ending, usize), ItemFault>
    requires { from ≤ length tokens.now.tokens }
    ensures value { Reads tokens.now result (numeral_or_nothing_at takes_numeral (left_from tokens.now from)) }
    ensures forth { IfOk result (λ read. (from ≤ read.1) × (read.1 ≤ length tokens.now.tokens)) }
{
    if takes_numeral {
        numeral_if_any(tokens, from)
    } else {
        Ok((Ending::Word, from))
    }
}

#[tactic(auto, unfolding(crate::specs::WordsReading::numeral_if_any_at))]
fn numeral_if_any(tokens: &Tokens<'_>, from: usize) -> Result<(Ending, usize), ItemFault>
    requires { from ≤ length tokens.now.tokens }
    ensures value { Reads tokens.now result (numeral_if_any_at (left_from tokens.now from)) }
    ensures forth { IfOk result (λ read. (from ≤ read.1) × (read.1 ≤ length tokens.now.tokens)) }
{
    if starts_numeral(tokens, from) {
        Ok((Ending::Placed, from + 1))
    } else {
        Ok((Ending::Placing, from))
    }
}

fn starts_numeral(tokens: &Tokens<'_>, from: usize) -> bool
    ensures value { result ≡ begins is_numeral (left_from tokens.now from) }
    ensures within { IsTrue result → (from < length tokens.now.tokens) × (from + 1 < 2 ^ 64) }
{
    matches!(next(tokens, from), Some((TokenKind::Numeral, _)))
}

// ---- strings and groups

#[tactic(auto, unfolding(crate::specs::WordsReading::plain_piece_at))]
fn plain_piece(tokens: &Tokens<'_>, from: usize) -> Result<(Run, usize), ItemFault>
    requires { from ≤ length tokens.now.tokens }
    ensures value { Reads tokens.now result (plain_piece_at (left_from tokens.now from)) }
    ensures forth { IfOk result (λ read. (from < read.1) × (read.1 ≤ length tokens.now.tokens)) }
{
    let (ending, at) = other_piece(tokens, from)?;
    Ok((
        Run {
            external: false,
            ending: ending,
        },
        at,
    ))
}

#[tactic(auto, unfolding(crate::specs::WordsReading::other_piece_at))]
fn other_piece(tokens: &Tokens<'_>, from: usize) -> Result<(Ending, usize), ItemFault>
    requires { from ≤ length tokens.now.tokens }
    ensures value { Reads tokens.now result (other_piece_at (left_from tokens.now from)) }
    ensures forth { IfOk result (λ read. (from < read.1) × (read.1 ≤ length tokens.now.tokens)) }
{
    if starts_string(tokens, from) {
        string_piece(tokens, from)
    } else {
        group_piece(tokens, from)
    }
}

#[tactic(auto, unfolding(crate::specs::WordsReading::string_piece_at))]
fn string_piece(tokens: &Tokens<'_>, from: usize) -> Result<(Ending, usize), ItemFault>
    requires { from ≤ length tokens.now.tokens }
    ensures value { Reads tokens.now result (string_piece_at (left_from tokens.now from)) }
    ensures forth { IfOk result (λ read. (from < read.1) × (read.1 ≤ length tokens.now.tokens)) }
{
    let at = string(tokens, from)?;
    if starts_sign(tokens, at, b'=') {
        paired(tokens, at)
    } else {
        Ok((Ending::Quoted, at))
    }
}

#[tactic(auto, unfolding(crate::specs::WordsReading::paired_at))]
fn paired(tokens: &Tokens<'_>, from: usize) -> Result<(Ending, usize), ItemFault>
    requires { from ≤ length tokens.now.tokens }
    ensures value { Reads tokens.now result (paired_at (left_from tokens.now from)) }
    ensures forth { IfOk result (λ read. (from < read.1) × (read.1 ≤ length tokens.now.tokens)) }
{
    let at = value(tokens, from)?;
    Ok((Ending::Closed, at))
}

#[tactic(auto, unfolding(crate::specs::WordsReading::value_at))]
fn value(tokens: &Tokens<'_>, from: usize) -> Result<usize, ItemFault>
    requires { from ≤ length tokens.now.tokens }
    ensures value { Passes tokens.now result (value_at (left_from tokens.now from)) }
    ensures forth { IfOk result (λ at. (from < at) × (at ≤ length tokens.now.tokens)) }
{
    let at = behind_sign(tokens, from, b'=')?;
    string(tokens, at)
}

/// The place behind a string.
pub fn string(tokens: &Tokens<'_>, from: usize) -> Result<usize, ItemFault>
    requires { from ≤ length tokens.now.tokens }
    ensures value { Passes tokens.now result (token_at is_string_token (left_from tokens.now from)) }
    ensures forth { IfOk result (λ at. (from < at) × (at ≤ length tokens.now.tokens)) }
{
    if starts_string(tokens, from) {
        Ok(from + 1)
    } else {
        Err(ItemFault::CannotGoOn { at_token: from })
    }
}

#[tactic(auto, unfolding(crate::specs::WordsReading::group_at))]
fn group_piece(tokens: &Tokens<'_>, from: usize) -> Result<(Ending, usize), ItemFault>
    requires { from ≤ length tokens.now.tokens }
    ensures value { Reads tokens.now result (group_at (left_from tokens.now from)) }
    ensures forth { IfOk result (λ read. (from < read.1) × (read.1 ≤ length tokens.now.tokens)) }
{
    let at = group(tokens, from)?;
    Ok((Ending::Closed, at))
}

/// The place behind a group of attributes.
pub fn group(tokens: &Tokens<'_>, from: usize) -> Result<usize, ItemFault>
    requires { from ≤ length tokens.now.tokens }
    ensures value { Passes tokens.now result (token_at is_group (left_from tokens.now from)) }
    ensures forth { IfOk result (λ at. (from < at) × (at ≤ length tokens.now.tokens)) }
{
    if starts_group(tokens, from) {
        Ok(from + 1)
    } else {
        Err(ItemFault::CannotGoOn { at_token: from })
    }
}

// ---- how a token begins a piece

/// Whether a piece of a run begins at a place.
pub(crate) fn starts_piece(tokens: &Tokens<'_>, from: usize) -> bool
    ensures { result ≡ begins begins_piece (left_from tokens.now from) }
{
    match next(tokens, from) {
        Some((TokenKind::Word, text)) => is_passed_text(text),
        Some((TokenKind::Quoted, text)) => is_string_text(text),
        Some((TokenKind::Group, text)) => is_group_text(text),
        _ => false,
    }
}

fn starts_passed(tokens: &Tokens<'_>, from: usize) -> bool
    ensures { result ≡ begins is_passed (left_from tokens.now from) }
{
    match next(tokens, from) {
        Some((TokenKind::Word, text)) => is_passed_text(text),
        _ => false,
    }
}

fn starts_string(tokens: &Tokens<'_>, from: usize) -> bool
    ensures value { result ≡ begins is_string_token (left_from tokens.now from) }
    ensures within { IsTrue result → (from < length tokens.now.tokens) × (from + 1 < 2 ^ 64) }
{
    match next(tokens, from) {
        Some((TokenKind::Quoted, text)) => is_string_text(text),
        _ => false,
    }
}

fn starts_group(tokens: &Tokens<'_>, from: usize) -> bool
    ensures value { result ≡ begins is_group (left_from tokens.now from) }
    ensures within { IsTrue result → (from < length tokens.now.tokens) × (from + 1 < 2 ^ 64) }
{
    match next(tokens, from) {
        Some((TokenKind::Group, text)) => is_group_text(text),
        _ => false,
    }
}

#[tactic(auto, unfolding(crate::specs::WordsReading::is_group_text))]
fn is_group_text(text: &[u8]) -> bool
    ensures { result ≡ is_group_text text.now }
{
    match text {
        [b'#', number @ ..] => is_signed_number(number),
        _ => false,
    }
}
