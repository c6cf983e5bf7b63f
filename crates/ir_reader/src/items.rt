//! The items of a module, each read by its first token.

ghost use Rattle.std.specs.Prelude.{◌≡◌, ◌<◌, ◌≤◌, length, IfOk};
ghost use Rattle.ir_parts.specs.Reading.{left_from, ReadsAs, begins};
ghost use Rattle.ir_parts.specs.Places.{mentions_at};
ghost use Rattle.ir_reader.specs.ItemsReading.{barred_behind, bare_item, sites_if_any, is_global_name, ends_in_comma, with_item, free_item_at, global_item_at, metadata_dropped_at, declare_item_at, function_item_at, line_item_at, defined_or_line_at, worded_item_at, unnamed_item_at, item_at, ReadsAll};

use ir_functions::read_function;
use ir_items::{GlobalEnding, ended_global, read_declare, read_passed_line, skip_metadata_item};
use ir_lex::Tokens;
use ir_model::Item;
use ir_parts::{Ending, ItemFault, is_global, next, starts_keyword, starts_metadata};
use sqlite_items::Items;
use std::alloc::{AllocError, Global};

/// How an item ends, which tells what could still go on with it.
#[derive(Clone, Copy, Debug, PartialEq, Eq)]
pub enum ItemEnding {
    /// So that nothing else could follow.
    Whole,
    /// As a global does.
    Global(GlobalEnding),
    /// With the run of passed-on words behind the parameters of a declaration.
    Declared(Ending),
}

type Ended = (Option<Item>, ItemEnding);

/// All items of the tokens but those that are dropped. Each id in them is the position of a token.
///
/// A fault stands at the first token with which no module goes on.
pub fn read_items(alloc: Global, tokens: &Tokens<'_>) -> Result<Items<Item>, ItemFault>
    ensures value { ReadsAll tokens.now result }
{
    let mut items = Items::new(alloc);
    let mut at = 0;
    'items: while at < tokens.len() {
        let (ended, behind) = free_item(alloc, tokens, at)?;
        add(&mut items, ended.0)?;
        at = behind;
    }
    Ok(items)
}

/// Adds an item, where there is one.
fn add(items: &mut Items<Item>, item: Option<Item>) -> Result<(), AllocError>
    ensures { IfOk result (λ _. items.new ≡ with_item items.old item) }
{
    if let Some(item) = item {
        items.push(item)?;
    }
    Ok(())
}

/// One item, behind which no metadata stands that would be an attachment.
#[tactic(auto, unfolding(crate::specs::ItemsReading::free_item_at))]
fn free_item(alloc: Global, tokens: &Tokens<'_>, from: usize) -> Result<(Ended, usize), ItemFault>
    requires { from ≤ length tokens.now.tokens }
    ensures value { ReadsAs (λ ended. (bare_item ended, mentions_at tokens.now (sites_if_any ended.0))) tokens.now
        result (free_item_at (left_from tokens.now from)) }
    ensures forth { IfOk result (λ read. (from < read.1) × (read.1 ≤ length tokens.now.tokens)) }
{
    let (ended, at) = item(alloc, tokens, from)?;
    if is_barred(tokens, at, ended.1) {
        return Err(ItemFault::CannotGoOn { at_token: at });
    }
    Ok((ended, at))
}

/// Whether the item before a place ends in a comma, behind which an empty run of words stands, and metadata stands at
/// the place.
fn is_barred(tokens: &Tokens<'_>, at: usize, ending: ItemEnding) -> bool
    ensures { result ≡ begins (barred_behind ending) (left_from tokens.now at) }
{
    ends_in_comma(ending) && starts_metadata(tokens, at)
}

/// Whether an item ends in a comma, behind which an empty run of words stands.
fn ends_in_comma(ending: ItemEnding) -> bool
    ensures { result ≡ ends_in_comma ending }
{
    matches!(
        ending,
        ItemEnding::Global(GlobalEnding::Words(Ending::Empty))
    )
}

/// One item, or none where it is dropped, and how it ends.
#[tactic(auto, unfolding(crate::specs::ItemsReading::item_at))]
fn item(alloc: Global, tokens: &Tokens<'_>, from: usize) -> Result<(Ended, usize), ItemFault>
    requires { from ≤ length tokens.now.tokens }
    ensures value { ReadsAs (λ ended. (bare_item ended, mentions_at tokens.now (sites_if_any ended.0))) tokens.now
        result (item_at (left_from tokens.now from)) }
    ensures forth { IfOk result (λ read. (from < read.1) × (read.1 ≤ length tokens.now.tokens)) }
{
    if starts_global(tokens, from) {
        global_item(alloc, tokens, from)
    } else {
        unnamed_item(alloc, tokens, from)
    }
}

#[tactic(auto, unfolding(crate::specs::ItemsReading::unnamed_item_at))]
fn unnamed_item(
    alloc: Global,
    tokens: &Tokens<'_>,
    from: usize,
) -> Result<(Ended, usize), ItemFault>
    requires { from ≤ length tokens.now.tokens }
    ensures value { ReadsAs (λ ended. (bare_item ended, mentions_at tokens.now (sites_if_any ended.0))) tokens.now
        result (unnamed_item_at (left_from tokens.now from)) }
    ensures forth { IfOk result (λ read. (from < read.1) × (read.1 ≤ length tokens.now.tokens)) }
{
    if starts_metadata(tokens, from) {
        metadata_dropped(alloc, tokens, from)
    } else {
        worded_item(alloc, tokens, from)
    }
}

#[tactic(auto, unfolding(crate::specs::ItemsReading::worded_item_at))]
fn worded_item(alloc: Global, tokens: &Tokens<'_>, from: usize) -> Result<(Ended, usize), ItemFault>
    requires { from ≤ length tokens.now.tokens }
    ensures value { ReadsAs (λ ended. (bare_item ended, mentions_at tokens.now (sites_if_any ended.0))) tokens.now
        result (worded_item_at (left_from tokens.now from)) }
    ensures forth { IfOk result (λ read. (from < read.1) × (read.1 ≤ length tokens.now.tokens)) }
{
    if starts_keyword(tokens, from, b"declare") {
        declare_item(alloc, tokens, from)
    } else {
        defined_or_line(alloc, tokens, from)
    }
}

#[tactic(auto, unfolding(crate::specs::ItemsReading::defined_or_line_at))]
fn defined_or_line(
    alloc: Global,
    tokens: &Tokens<'_>,
    from: usize,
) -> Result<(Ended, usize), ItemFault>
    requires { from ≤ length tokens.now.tokens }
    ensures value { ReadsAs (λ ended. (bare_item ended, mentions_at tokens.now (sites_if_any ended.0))) tokens.now
        result (defined_or_line_at (left_from tokens.now from)) }
    ensures forth { IfOk result (λ read. (from < read.1) × (read.1 ≤ length tokens.now.tokens)) }
{
    if starts_keyword(tokens, from, b"define") {
        function_item(alloc, tokens, from)
    } else {
        line_item(alloc, tokens, from)
    }
}

#[tactic(auto, unfolding(crate::specs::ItemsReading::global_item_at))]
fn global_item(alloc: Global, tokens: &Tokens<'_>, from: usize) -> Result<(Ended, usize), ItemFault>
    requires { from ≤ length tokens.now.tokens }
    ensures value { ReadsAs (λ ended. (bare_item ended, mentions_at tokens.now (sites_if_any ended.0))) tokens.now
        result (global_item_at (left_from tokens.now from)) }
    ensures forth { IfOk result (λ read. (from < read.1) × (read.1 ≤ length tokens.now.tokens)) }
{
    let ((global, ending), at) = ended_global(alloc, tokens, from)?;
    Ok(((Some(Item::Global(global)), ItemEnding::Global(ending)), at))
}

#[tactic(auto, unfolding(crate::specs::ItemsReading::metadata_dropped_at))]
fn metadata_dropped(
    alloc: Global,
    tokens: &Tokens<'_>,
    from: usize,
) -> Result<(Ended, usize), ItemFault>
    requires { from ≤ length tokens.now.tokens }
    ensures value { ReadsAs (λ ended. (bare_item ended, mentions_at tokens.now (sites_if_any ended.0))) tokens.now
        result (metadata_dropped_at (left_from tokens.now from)) }
    ensures forth { IfOk result (λ read. (from < read.1) × (read.1 ≤ length tokens.now.tokens)) }
{
    let at = skip_metadata_item(alloc, tokens, from)?;
    Ok(((None, ItemEnding::Whole), at))
}

#[tactic(auto, unfolding(crate::specs::ItemsReading::declare_item_at))]
fn declare_item(
    alloc: Global,
    tokens: &Tokens<'_>,
    from: usize,
) -> Result<(Ended, usize), ItemFault>
    requires { from ≤ length tokens.now.tokens }
    ensures value { ReadsAs (λ ended. (bare_item ended, mentions_at tokens.now (sites_if_any ended.0))) tokens.now
        result (declare_item_at (left_from tokens.now from)) }
    ensures forth { IfOk result (λ read. (from < read.1) × (read.1 ≤ length tokens.now.tokens)) }
{
    let ((declare, ending), at) = read_declare(alloc, tokens, from)?;
    let item = match declare {
        Some(declare) => Some(Item::Declare(declare)),
        None => None,
    };
    Ok(((item, ItemEnding::Declared(ending)), at))
}

#[tactic(auto, unfolding(crate::specs::ItemsReading::function_item_at))]
fn function_item(
    alloc: Global,
    tokens: &Tokens<'_>,
    from: usize,
) -> Result<(Ended, usize), ItemFault>
    requires { from ≤ length tokens.now.tokens }
    ensures value { ReadsAs (λ ended. (bare_item ended, mentions_at tokens.now (sites_if_any ended.0))) tokens.now
        result (function_item_at (left_from tokens.now from)) }
    ensures forth { IfOk result (λ read. (from < read.1) × (read.1 ≤ length tokens.now.tokens)) }
{
    let (function, at) = read_function(alloc, tokens, from)?;
    Ok(((Some(Item::Define(function)), ItemEnding::Whole), at))
}

#[tactic(auto, unfolding(crate::specs::ItemsReading::line_item_at))]
fn line_item(alloc: Global, tokens: &Tokens<'_>, from: usize) -> Result<(Ended, usize), ItemFault>
    requires { from ≤ length tokens.now.tokens }
    ensures value { ReadsAs (λ ended. (bare_item ended, mentions_at tokens.now (sites_if_any ended.0))) tokens.now
        result (line_item_at (left_from tokens.now from)) }
    ensures forth { IfOk result (λ read. (from < read.1) × (read.1 ≤ length tokens.now.tokens)) }
{
    let (text, at) = read_passed_line(alloc, tokens, from)?;
    Ok(((Some(Item::PassedOn(text)), ItemEnding::Whole), at))
}

/// Whether the token at a place is `@name`.
fn starts_global(tokens: &Tokens<'_>, from: usize) -> bool
    ensures { result ≡ begins is_global_name (left_from tokens.now from) }
{
    match next(tokens, from) {
        Some((kind, text)) => is_global(kind, text),
        None => false,
    }
}
