//! Lines that are passed on: the name of the source, the target, and groups of attributes.

ghost use Rattle.std.specs.Prelude.{◌≡◌, ◌+◌, ◌^◌, ◌<◌, ◌≤◌, length, IfOk, IsTrue};
ghost use Rattle.ir_text.specs.PassedOn.{passed_text};
ghost use Rattle.ir_grammar.specs.Items.{passed_line};
ghost use Rattle.ir_parts.specs.Reading.{left_from, begins, token_at, Reads, Passes};
ghost use Rattle.ir_parts.specs.Sentences.{Tells};
ghost use Rattle.ir_items.specs.LayoutScan.{is_fine_layout};
ghost use Rattle.ir_items.specs.LineReading.{is_layout_text, is_layout, string_set_at, layout_set_at, braces_set_at, source_line_at, triple_at, data_layout_at, target_at, target_line_at, attributes_line_at, other_line_at, line_at, passed_line_at};

use crate::layout::layout_fault;
use ir_lex::{TokenKind, Tokens};
use ir_model::Text;
use ir_parts::{
    ItemFault, behind_group, behind_keyword, behind_sign, behind_string, inner_text,
    is_string_text, next, skip_braces, starts_keyword, text_between,
};
use std::alloc::Global;

/// The text that a line is passed on as, and the place behind the line.
///
/// A line begins with `source_filename`, `target` or `attributes`. A fault stands at the first token with which no line
/// goes on: also at the string of a data layout of which something is left out. Memory is taken for the text and for
/// the brackets that are open.
pub fn read_passed_line(
    alloc: Global,
    tokens: &Tokens<'_>,
    from: usize,
) -> Result<(Text, usize), ItemFault>
    requires { from ≤ length tokens.now.tokens }
    ensures sentence { Tells (λ text ts. passed_line ts × (text ≡ passed_text ts)) tokens.now from result }
    ensures value { Reads tokens.now result (passed_line_at (left_from tokens.now from)) }
    ensures forth { IfOk result (λ read. (from < read.1) × (read.1 ≤ length tokens.now.tokens)) }
{
    passed_line(alloc, tokens, from)
}

fn passed_line(alloc: Global, tokens: &Tokens<'_>, from: usize) -> Result<(Text, usize), ItemFault>
    requires { from ≤ length tokens.now.tokens }
    ensures value { Reads tokens.now result (passed_line_at (left_from tokens.now from)) }
    ensures forth { IfOk result (λ read. (from < read.1) × (read.1 ≤ length tokens.now.tokens)) }
{
    let at = line(alloc, tokens, from)?;
    let text = text_between(alloc, tokens, from, at)?;
    Ok((text, at))
}

#[tactic(auto, unfolding(crate::specs::LineReading::line_at))]
fn line(alloc: Global, tokens: &Tokens<'_>, from: usize) -> Result<usize, ItemFault>
    requires { from ≤ length tokens.now.tokens }
    ensures value { Passes tokens.now result (line_at (left_from tokens.now from)) }
    ensures forth { IfOk result (λ at. (from < at) × (at ≤ length tokens.now.tokens)) }
{
    if starts_keyword(tokens, from, b"source_filename") {
        source_line(tokens, from)
    } else {
        other_line(alloc, tokens, from)
    }
}

#[tactic(auto, unfolding(crate::specs::LineReading::other_line_at))]
fn other_line(alloc: Global, tokens: &Tokens<'_>, from: usize) -> Result<usize, ItemFault>
    requires { from ≤ length tokens.now.tokens }
    ensures value { Passes tokens.now result (other_line_at (left_from tokens.now from)) }
    ensures forth { IfOk result (λ at. (from < at) × (at ≤ length tokens.now.tokens)) }
{
    if starts_keyword(tokens, from, b"target") {
        target_line(tokens, from)
    } else {
        attributes_line(alloc, tokens, from)
    }
}

#[tactic(auto, unfolding(crate::specs::LineReading::source_line_at))]
fn source_line(tokens: &Tokens<'_>, from: usize) -> Result<usize, ItemFault>
    requires { from ≤ length tokens.now.tokens }
    ensures value { Passes tokens.now result (source_line_at (left_from tokens.now from)) }
    ensures forth { IfOk result (λ at. (from < at) × (at ≤ length tokens.now.tokens)) }
{
    let at = behind_keyword(tokens, from, b"source_filename")?;
    string_set(tokens, at)
}

#[tactic(auto, unfolding(crate::specs::LineReading::target_line_at))]
fn target_line(tokens: &Tokens<'_>, from: usize) -> Result<usize, ItemFault>
    requires { from ≤ length tokens.now.tokens }
    ensures value { Passes tokens.now result (target_line_at (left_from tokens.now from)) }
    ensures forth { IfOk result (λ at. (from < at) × (at ≤ length tokens.now.tokens)) }
{
    let at = behind_keyword(tokens, from, b"target")?;
    target(tokens, at)
}

#[tactic(auto, unfolding(crate::specs::LineReading::target_at))]
fn target(tokens: &Tokens<'_>, from: usize) -> Result<usize, ItemFault>
    requires { from ≤ length tokens.now.tokens }
    ensures value { Passes tokens.now result (target_at (left_from tokens.now from)) }
    ensures forth { IfOk result (λ at. (from < at) × (at ≤ length tokens.now.tokens)) }
{
    if starts_keyword(tokens, from, b"triple") {
        triple(tokens, from)
    } else {
        data_layout(tokens, from)
    }
}

#[tactic(auto, unfolding(crate::specs::LineReading::triple_at))]
fn triple(tokens: &Tokens<'_>, from: usize) -> Result<usize, ItemFault>
    requires { from ≤ length tokens.now.tokens }
    ensures value { Passes tokens.now result (triple_at (left_from tokens.now from)) }
    ensures forth { IfOk result (λ at. (from < at) × (at ≤ length tokens.now.tokens)) }
{
    let at = behind_keyword(tokens, from, b"triple")?;
    string_set(tokens, at)
}

#[tactic(auto, unfolding(crate::specs::LineReading::data_layout_at))]
fn data_layout(tokens: &Tokens<'_>, from: usize) -> Result<usize, ItemFault>
    requires { from ≤ length tokens.now.tokens }
    ensures value { Passes tokens.now result (data_layout_at (left_from tokens.now from)) }
    ensures forth { IfOk result (λ at. (from < at) × (at ≤ length tokens.now.tokens)) }
{
    let at = behind_keyword(tokens, from, b"datalayout")?;
    layout_set(tokens, at)
}

#[tactic(auto, unfolding(crate::specs::LineReading::attributes_line_at))]
fn attributes_line(alloc: Global, tokens: &Tokens<'_>, from: usize) -> Result<usize, ItemFault>
    requires { from ≤ length tokens.now.tokens }
    ensures value { Passes tokens.now result (attributes_line_at (left_from tokens.now from)) }
    ensures forth { IfOk result (λ at. (from < at) × (at ≤ length tokens.now.tokens)) }
{
    let at = behind_keyword(tokens, from, b"attributes")?;
    let at = behind_group(tokens, at)?;
    braces_set(alloc, tokens, at)
}

// ---- `=` and what stands behind it

#[tactic(auto, unfolding(crate::specs::LineReading::string_set_at))]
fn string_set(tokens: &Tokens<'_>, from: usize) -> Result<usize, ItemFault>
    requires { from ≤ length tokens.now.tokens }
    ensures value { Passes tokens.now result (string_set_at (left_from tokens.now from)) }
    ensures forth { IfOk result (λ at. (from < at) × (at ≤ length tokens.now.tokens)) }
{
    let at = behind_sign(tokens, from, b'=')?;
    behind_string(tokens, at)
}

#[tactic(auto, unfolding(crate::specs::LineReading::layout_set_at))]
fn layout_set(tokens: &Tokens<'_>, from: usize) -> Result<usize, ItemFault>
    requires { from ≤ length tokens.now.tokens }
    ensures value { Passes tokens.now result (layout_set_at (left_from tokens.now from)) }
    ensures forth { IfOk result (λ at. (from < at) × (at ≤ length tokens.now.tokens)) }
{
    let at = behind_sign(tokens, from, b'=')?;
    layout(tokens, at)
}

#[tactic(auto, unfolding(crate::specs::LineReading::braces_set_at))]
fn braces_set(alloc: Global, tokens: &Tokens<'_>, from: usize) -> Result<usize, ItemFault>
    requires { from ≤ length tokens.now.tokens }
    ensures value { Passes tokens.now result (braces_set_at (left_from tokens.now from)) }
    ensures forth { IfOk result (λ at. (from < at) × (at ≤ length tokens.now.tokens)) }
{
    let at = behind_sign(tokens, from, b'=')?;
    skip_braces(alloc, tokens, at)
}

/// The place behind the string of a data layout.
fn layout(tokens: &Tokens<'_>, from: usize) -> Result<usize, ItemFault>
    requires { from ≤ length tokens.now.tokens }
    ensures value { Passes tokens.now result (token_at is_layout (left_from tokens.now from)) }
    ensures forth { IfOk result (λ at. (from < at) × (at ≤ length tokens.now.tokens)) }
{
    if starts_layout(tokens, from) {
        Ok(from + 1)
    } else {
        Err(ItemFault::CannotGoOn { at_token: from })
    }
}

fn starts_layout(tokens: &Tokens<'_>, from: usize) -> bool
    ensures value { result ≡ begins is_layout (left_from tokens.now from) }
    ensures within { IsTrue result → (from < length tokens.now.tokens) × (from + 1 < 2 ^ 64) }
{
    match next(tokens, from) {
        Some((TokenKind::Quoted, text)) => is_layout_text(text),
        _ => false,
    }
}

fn is_layout_text(text: &[u8]) -> bool
    ensures { result ≡ is_layout_text text.now }
{
    is_string_text(text) && is_fine_layout(inner_text(text))
}

fn is_fine_layout(text: &[u8]) -> bool
    ensures { result ≡ is_fine_layout text.now }
{
    layout_fault(text).is_none()
}
