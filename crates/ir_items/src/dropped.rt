//! Items that are dropped.

ghost use Rattle.std.specs.Prelude.{◌<◌, ◌≤◌, length, IfOk};
ghost use Rattle.ir_parts.specs.Reading.{left_from, Passes};
ghost use Rattle.ir_parts.specs.Sentences.{TellsPlace};
ghost use Rattle.ir_items.specs.DroppedReading.{metadata_item, distinct_node_at, any_node_at, node_set_at, metadata_item_at};

use ir_lex::Tokens;
use ir_parts::{
    ItemFault, behind_keyword, behind_metadata, behind_sign, skip_node, starts_keyword,
};
use std::alloc::Global;

/// The place behind an item of metadata: a name, `=`, maybe `distinct`, and a node. A fault stands at the first token
/// with which no such item goes on; memory is taken for the brackets that are open.
pub fn skip_metadata_item(
    alloc: Global,
    tokens: &Tokens<'_>,
    from: usize,
) -> Result<usize, ItemFault>
    requires { from ≤ length tokens.now.tokens }
    ensures sentence { TellsPlace metadata_item tokens.now from result }
    ensures value { Passes tokens.now result (metadata_item_at (left_from tokens.now from)) }
    ensures forth { IfOk result (λ at. (from < at) × (at ≤ length tokens.now.tokens)) }
{
    metadata_item(alloc, tokens, from)
}

#[tactic(auto, unfolding(crate::specs::DroppedReading::metadata_item_at))]
fn metadata_item(alloc: Global, tokens: &Tokens<'_>, from: usize) -> Result<usize, ItemFault>
    requires { from ≤ length tokens.now.tokens }
    ensures value { Passes tokens.now result (metadata_item_at (left_from tokens.now from)) }
    ensures forth { IfOk result (λ at. (from < at) × (at ≤ length tokens.now.tokens)) }
{
    let at = behind_metadata(tokens, from)?;
    node_set(alloc, tokens, at)
}

#[tactic(auto, unfolding(crate::specs::DroppedReading::node_set_at))]
fn node_set(alloc: Global, tokens: &Tokens<'_>, from: usize) -> Result<usize, ItemFault>
    requires { from ≤ length tokens.now.tokens }
    ensures value { Passes tokens.now result (node_set_at (left_from tokens.now from)) }
    ensures forth { IfOk result (λ at. (from < at) × (at ≤ length tokens.now.tokens)) }
{
    let at = behind_sign(tokens, from, b'=')?;
    any_node(alloc, tokens, at)
}

#[tactic(auto, unfolding(crate::specs::DroppedReading::any_node_at))]
fn any_node(alloc: Global, tokens: &Tokens<'_>, from: usize) -> Result<usize, ItemFault>
    requires { from ≤ length tokens.now.tokens }
    ensures value { Passes tokens.now result (any_node_at (left_from tokens.now from)) }
    ensures forth { IfOk result (λ at. (from < at) × (at ≤ length tokens.now.tokens)) }
{
    if starts_keyword(tokens, from, b"distinct") {
        distinct_node(alloc, tokens, from)
    } else {
        skip_node(alloc, tokens, from)
    }
}

#[tactic(auto, unfolding(crate::specs::DroppedReading::distinct_node_at))]
fn distinct_node(alloc: Global, tokens: &Tokens<'_>, from: usize) -> Result<usize, ItemFault>
    requires { from ≤ length tokens.now.tokens }
    ensures value { Passes tokens.now result (distinct_node_at (left_from tokens.now from)) }
    ensures forth { IfOk result (λ at. (from < at) × (at ≤ length tokens.now.tokens)) }
{
    let at = behind_keyword(tokens, from, b"distinct")?;
    skip_node(alloc, tokens, at)
}
