//! Metadata, which is dropped.

ghost use Rattle.std.specs.Prelude.{◌≡◌, ◌+◌, ◌^◌, ◌<◌, ◌≤◌, length, IfOk, IsTrue};
ghost use Rattle.ir_text.specs.PassedOn.{attachments, metadata_node, metadata_pairs};
ghost use Rattle.ir_parts.specs.Sentences.{TellsPlace};
ghost use Rattle.ir_parts.specs.Reading.{left_from, begins, token_at, Passes};
ghost use Rattle.ir_parts.specs.ListReading.{begins_part};
ghost use Rattle.ir_parts.specs.MetadataReading.{is_metadata, is_word_text, is_number_text, is_bang_text, is_metadata_word, is_metadata_number, is_bang, braces_at, braced_node_at, named_node_at, node_at, attached_at, bare_attachment_at, attachment_at, attachments_at, pair_at, pairs_at};

use crate::brackets::behind_brackets;
use crate::cursor::{behind_sign, next, starts_sign};
use crate::fault::ItemFault;
use crate::forms::is_signed_number;
use crate::pieces::parentheses;
use ir_lex::{TokenKind, Tokens};
use ir_text::is_word;
use std::alloc::Global;

/// The place behind attachments, as many as stand there. A fault stands at the first token with which no
/// attachments go on; memory is taken for the brackets that are open.
pub fn skip_metadata(alloc: Global, tokens: &Tokens<'_>, from: usize) -> Result<usize, ItemFault>
    requires { from ≤ length tokens.now.tokens }
    ensures sentence { TellsPlace attachments tokens.now from result }
    ensures value { Passes tokens.now result (attachments_at (left_from tokens.now from)) }
    ensures forth { IfOk result (λ at. (from ≤ at) × (at ≤ length tokens.now.tokens)) }
{
    attachments(alloc, tokens, from)
}

fn attachments(alloc: Global, tokens: &Tokens<'_>, from: usize) -> Result<usize, ItemFault>
    requires { from ≤ length tokens.now.tokens }
    ensures value { Passes tokens.now result (attachments_at (left_from tokens.now from)) }
    ensures forth { IfOk result (λ at. (from ≤ at) × (at ≤ length tokens.now.tokens)) }
{
    let mut at = from;
    'attachments: while starts_sign(tokens, at, b',') {
        at = attachment(alloc, tokens, at)?;
    }
    Ok(at)
}

/// The place behind pairs of metadata, as many as stand there. A fault stands where a pair is broken off.
pub fn skip_pairs(tokens: &Tokens<'_>, from: usize) -> Result<usize, ItemFault>
    requires { from ≤ length tokens.now.tokens }
    ensures sentence { TellsPlace metadata_pairs tokens.now from result }
    ensures value { Passes tokens.now result (pairs_at (left_from tokens.now from)) }
    ensures forth { IfOk result (λ at. (from ≤ at) × (at ≤ length tokens.now.tokens)) }
{
    all_pairs(tokens, from)
}

fn all_pairs(tokens: &Tokens<'_>, from: usize) -> Result<usize, ItemFault>
    requires { from ≤ length tokens.now.tokens }
    ensures value { Passes tokens.now result (pairs_at (left_from tokens.now from)) }
    ensures forth { IfOk result (λ at. (from ≤ at) × (at ≤ length tokens.now.tokens)) }
{
    let mut at = from;
    'pairs: while starts_metadata(tokens, at) {
        at = pair(tokens, at)?;
    }
    Ok(at)
}

#[tactic(auto, unfolding(crate::specs::MetadataReading::attachment_at))]
fn attachment(alloc: Global, tokens: &Tokens<'_>, from: usize) -> Result<usize, ItemFault>
    requires { from ≤ length tokens.now.tokens }
    ensures value { Passes tokens.now result (attachment_at (left_from tokens.now from)) }
    ensures forth { IfOk result (λ at. (from < at) × (at ≤ length tokens.now.tokens)) }
{
    let at = behind_sign(tokens, from, b',')?;
    let at = metadata_word(tokens, at)?;
    attached(alloc, tokens, at)
}

#[tactic(auto, unfolding(crate::specs::MetadataReading::attached_at))]
fn attached(alloc: Global, tokens: &Tokens<'_>, from: usize) -> Result<usize, ItemFault>
    requires { from ≤ length tokens.now.tokens }
    ensures value { Passes tokens.now result (attached_at (left_from tokens.now from)) }
    ensures forth { IfOk result (λ at. (from < at) × (at ≤ length tokens.now.tokens)) }
{
    if starts_number(tokens, from) {
        number(tokens, from)
    } else {
        node(alloc, tokens, from)
    }
}

/// The place behind a node of metadata, `!{ .. }` or `!word( .. )`. A fault stands at the first token with which no
/// node goes on; memory is taken for the brackets that are open.
pub fn skip_node(alloc: Global, tokens: &Tokens<'_>, from: usize) -> Result<usize, ItemFault>
    requires { from ≤ length tokens.now.tokens }
    ensures sentence { TellsPlace metadata_node tokens.now from result }
    ensures value { Passes tokens.now result (node_at (left_from tokens.now from)) }
    ensures forth { IfOk result (λ at. (from < at) × (at ≤ length tokens.now.tokens)) }
{
    node(alloc, tokens, from)
}

/// `!{ .. }` or `!word( .. )`.
#[tactic(auto, unfolding(crate::specs::MetadataReading::node_at))]
fn node(alloc: Global, tokens: &Tokens<'_>, from: usize) -> Result<usize, ItemFault>
    requires { from ≤ length tokens.now.tokens }
    ensures value { Passes tokens.now result (node_at (left_from tokens.now from)) }
    ensures forth { IfOk result (λ at. (from < at) × (at ≤ length tokens.now.tokens)) }
{
    if starts_bang(tokens, from) {
        braced_node(alloc, tokens, from)
    } else {
        named_node(alloc, tokens, from)
    }
}

#[tactic(auto, unfolding(crate::specs::MetadataReading::braced_node_at))]
fn braced_node(alloc: Global, tokens: &Tokens<'_>, from: usize) -> Result<usize, ItemFault>
    requires { from ≤ length tokens.now.tokens }
    ensures value { Passes tokens.now result (braced_node_at (left_from tokens.now from)) }
    ensures forth { IfOk result (λ at. (from < at) × (at ≤ length tokens.now.tokens)) }
{
    let at = bang(tokens, from)?;
    braces(alloc, tokens, at)
}

#[tactic(auto, unfolding(crate::specs::MetadataReading::named_node_at))]
fn named_node(alloc: Global, tokens: &Tokens<'_>, from: usize) -> Result<usize, ItemFault>
    requires { from ≤ length tokens.now.tokens }
    ensures value { Passes tokens.now result (named_node_at (left_from tokens.now from)) }
    ensures forth { IfOk result (λ at. (from < at) × (at ≤ length tokens.now.tokens)) }
{
    let at = metadata_word(tokens, from)?;
    parentheses(alloc, tokens, at)
}

/// The place behind `{ .. }`.
#[tactic(auto, unfolding(crate::specs::MetadataReading::braces_at))]
pub fn braces(alloc: Global, tokens: &Tokens<'_>, from: usize) -> Result<usize, ItemFault>
    requires { from ≤ length tokens.now.tokens }
    ensures value { Passes tokens.now result (braces_at (left_from tokens.now from)) }
    ensures forth { IfOk result (λ at. (from < at) × (at ≤ length tokens.now.tokens)) }
{
    let at = behind_sign(tokens, from, b'{')?;
    behind_brackets(alloc, tokens, at, b'}')
}

#[tactic(auto, unfolding(crate::specs::MetadataReading::pair_at))]
fn pair(tokens: &Tokens<'_>, from: usize) -> Result<usize, ItemFault>
    requires { from ≤ length tokens.now.tokens }
    ensures value { Passes tokens.now result (pair_at (left_from tokens.now from)) }
    ensures forth { IfOk result (λ at. (from < at) × (at ≤ length tokens.now.tokens)) }
{
    let at = metadata(tokens, from)?;
    metadata(tokens, at)
}

/// The place behind an attachment whose comma stands before.
#[tactic(auto, unfolding(crate::specs::MetadataReading::bare_attachment_at))]
pub fn skip_bare_attachment(
    alloc: Global,
    tokens: &Tokens<'_>,
    from: usize,
) -> Result<usize, ItemFault>
    requires { from ≤ length tokens.now.tokens }
    ensures value { Passes tokens.now result (bare_attachment_at (left_from tokens.now from)) }
    ensures forth { IfOk result (λ at. (from < at) × (at ≤ length tokens.now.tokens)) }
{
    let at = metadata_word(tokens, from)?;
    attached(alloc, tokens, at)
}

fn metadata_word(tokens: &Tokens<'_>, from: usize) -> Result<usize, ItemFault>
    requires { from ≤ length tokens.now.tokens }
    ensures value { Passes tokens.now result (token_at is_metadata_word (left_from tokens.now from)) }
    ensures forth { IfOk result (λ at. (from < at) × (at ≤ length tokens.now.tokens)) }
{
    if starts_metadata_word(tokens, from) {
        Ok(from + 1)
    } else {
        Err(ItemFault::CannotGoOn { at_token: from })
    }
}

fn number(tokens: &Tokens<'_>, from: usize) -> Result<usize, ItemFault>
    requires { from ≤ length tokens.now.tokens }
    ensures value { Passes tokens.now result (token_at is_metadata_number (left_from tokens.now from)) }
    ensures forth { IfOk result (λ at. (from < at) × (at ≤ length tokens.now.tokens)) }
{
    if starts_number(tokens, from) {
        Ok(from + 1)
    } else {
        Err(ItemFault::CannotGoOn { at_token: from })
    }
}

fn bang(tokens: &Tokens<'_>, from: usize) -> Result<usize, ItemFault>
    requires { from ≤ length tokens.now.tokens }
    ensures value { Passes tokens.now result (token_at is_bang (left_from tokens.now from)) }
    ensures forth { IfOk result (λ at. (from < at) × (at ≤ length tokens.now.tokens)) }
{
    if starts_bang(tokens, from) {
        Ok(from + 1)
    } else {
        Err(ItemFault::CannotGoOn { at_token: from })
    }
}

/// The place behind any token of metadata.
pub fn metadata(tokens: &Tokens<'_>, from: usize) -> Result<usize, ItemFault>
    requires { from ≤ length tokens.now.tokens }
    ensures value { Passes tokens.now result (token_at is_metadata (left_from tokens.now from)) }
    ensures forth { IfOk result (λ at. (from < at) × (at ≤ length tokens.now.tokens)) }
{
    if starts_metadata(tokens, from) {
        Ok(from + 1)
    } else {
        Err(ItemFault::CannotGoOn { at_token: from })
    }
}

/// Whether a thing stands next behind a comma: metadata behind a comma is an attachment.
pub fn starts_part(tokens: &Tokens<'_>, from: usize) -> bool
    ensures value { result ≡ begins_part (left_from tokens.now from) }
    ensures within { IsTrue result → (from < length tokens.now.tokens) × (from + 1 < 2 ^ 64) }
{
    starts_sign(tokens, from, b',') && !starts_metadata(tokens, from + 1)
}

/// Whether the token at a place is the kind of an attachment, `!` and a word.
pub fn starts_metadata_word(tokens: &Tokens<'_>, from: usize) -> bool
    ensures value { result ≡ begins is_metadata_word (left_from tokens.now from) }
    ensures within { IsTrue result → (from < length tokens.now.tokens) × (from + 1 < 2 ^ 64) }
{
    match next(tokens, from) {
        Some((TokenKind::Metadata, text)) => is_word_text(text),
        _ => false,
    }
}

fn starts_number(tokens: &Tokens<'_>, from: usize) -> bool
    ensures value { result ≡ begins is_metadata_number (left_from tokens.now from) }
    ensures within { IsTrue result → (from < length tokens.now.tokens) × (from + 1 < 2 ^ 64) }
{
    match next(tokens, from) {
        Some((TokenKind::Metadata, text)) => is_number_text(text),
        _ => false,
    }
}

fn starts_bang(tokens: &Tokens<'_>, from: usize) -> bool
    ensures value { result ≡ begins is_bang (left_from tokens.now from) }
    ensures within { IsTrue result → (from < length tokens.now.tokens) × (from + 1 < 2 ^ 64) }
{
    match next(tokens, from) {
        Some((TokenKind::Metadata, text)) => is_bang_text(text),
        _ => false,
    }
}

/// Whether the token at a place is any token of metadata.
pub fn starts_metadata(tokens: &Tokens<'_>, from: usize) -> bool
    ensures value { result ≡ begins is_metadata (left_from tokens.now from) }
    ensures within { IsTrue result → (from < length tokens.now.tokens) × (from + 1 < 2 ^ 64) }
{
    matches!(next(tokens, from), Some((TokenKind::Metadata, _)))
}

#[tactic(auto, unfolding(crate::specs::MetadataReading::is_word_text))]
fn is_word_text(text: &[u8]) -> bool
    ensures { result ≡ is_word_text text.now }
{
    match text {
        [b'!', name @ ..] => is_word(name),
        _ => false,
    }
}

#[tactic(auto, unfolding(crate::specs::MetadataReading::is_number_text))]
fn is_number_text(text: &[u8]) -> bool
    ensures { result ≡ is_number_text text.now }
{
    match text {
        [b'!', number @ ..] => is_signed_number(number),
        _ => false,
    }
}

#[tactic(auto, unfolding(crate::specs::MetadataReading::is_bang_text))]
fn is_bang_text(text: &[u8]) -> bool
    ensures { result ≡ is_bang_text text.now }
{
    match text {
        [b'!'] => true,
        _ => false,
    }
}
