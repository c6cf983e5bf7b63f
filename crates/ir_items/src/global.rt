//! Globals.

ghost use Rattle.std.specs.Prelude.{◌≡◌, ◌+◌, ◌<◌, ◌≤◌, length, IfOk};
ghost use Rattle.ir_grammar.specs.Items.{SpellsGlobal};
ghost use Rattle.ir_parts.specs.Sentences.{Tells};
ghost use Rattle.ir_parts.specs.Reading.{left_from, Reads, Passes};
ghost use Rattle.ir_items.specs.TailReading.{begins_run, next_run_at, some_attached_at, tail_at};
ghost use Rattle.ir_items.specs.GlobalReading.{name_at, constant_at, typed_at, initialiser_at, ended_global_at, global_at};

use crate::global_ending::{GlobalEnding, Tail, Typed};
use crate::initialiser::initialiser;
use ir_lex::Tokens;
use ir_model::{Global_, Init, Text};
use ir_parts::{
    ItemFault, Run, behind_keyword, behind_sign, read_global_name, read_stored_type,
    skip_bare_attachment, skip_metadata, starts_keyword, starts_metadata_word, starts_sign, words,
};
use sqlite_items::Items;
use std::alloc::Global;

/// A global variable or constant, and the place behind it: `@name`, `=`, words, `global` or `constant`, its type, its
/// initialiser, runs of words that stand each behind a comma, and attachments, which are dropped. There is no
/// initialiser exactly where one of the first words is `external` or `extern_weak`.
///
/// A fault stands at the first token with which no global goes on. Memory also runs out where more than 1,024 lists
/// stand one within another.
pub fn read_global(
    alloc: Global,
    tokens: &Tokens<'_>,
    from: usize,
) -> Result<(Global_, usize), ItemFault>
    requires { from ≤ length tokens.now.tokens }
    ensures sentence { Tells SpellsGlobal tokens.now from result }
    ensures value { Reads tokens.now result (global_at (left_from tokens.now from)) }
    ensures forth { IfOk result (λ read. (from < read.1) × (read.1 ≤ length tokens.now.tokens)) }
{
    global(alloc, tokens, from)
}

#[tactic(auto, unfolding(crate::specs::GlobalReading::global_at))]
fn global(alloc: Global, tokens: &Tokens<'_>, from: usize) -> Result<(Global_, usize), ItemFault>
    requires { from ≤ length tokens.now.tokens }
    ensures value { Reads tokens.now result (global_at (left_from tokens.now from)) }
    ensures forth { IfOk result (λ read. (from < read.1) × (read.1 ≤ length tokens.now.tokens)) }
{
    let ((global, _), at) = ended_global(alloc, tokens, from)?;
    Ok((global, at))
}

/// The same, and how the global ends.
#[tactic(auto, unfolding(crate::specs::GlobalReading::ended_global_at, crate::specs::GlobalReading::described_at, crate::specs::GlobalReading::valued_at))]
pub fn ended_global(
    alloc: Global,
    tokens: &Tokens<'_>,
    from: usize,
) -> Result<((Global_, GlobalEnding), usize), ItemFault>
    requires { from ≤ length tokens.now.tokens }
    ensures value { Reads tokens.now result (ended_global_at (left_from tokens.now from)) }
    ensures forth { IfOk result (λ read. (from < read.1) × (read.1 ≤ length tokens.now.tokens)) }
{
    let (name, at) = name(alloc, tokens, from)?;
    let (typed, at) = typed(alloc, tokens, at)?;
    let (init, at) = initialiser_if(alloc, tokens, at, typed.run.external)?;
    let (tail, at) = tail(alloc, tokens, at)?;
    let global = Global_ {
        name,
        before: typed.before,
        constant: typed.constant,
        kind: typed.kind,
        init,
        after: tail.after,
    };
    Ok(((global, tail.ending), at))
}

/// `@name =`.
#[tactic(auto, unfolding(crate::specs::GlobalReading::name_at))]
fn name(alloc: Global, tokens: &Tokens<'_>, from: usize) -> Result<(Text, usize), ItemFault>
    requires { from ≤ length tokens.now.tokens }
    ensures value { Reads tokens.now result (name_at (left_from tokens.now from)) }
    ensures forth { IfOk result (λ read. (from < read.1) × (read.1 ≤ length tokens.now.tokens)) }
{
    let (name, at) = read_global_name(alloc, tokens, from)?;
    let at = behind_sign(tokens, at, b'=')?;
    Ok((name, at))
}

/// Words, `global` or `constant`, and a type.
#[tactic(auto, unfolding(crate::specs::GlobalReading::typed_at))]
fn typed(alloc: Global, tokens: &Tokens<'_>, from: usize) -> Result<(Typed, usize), ItemFault>
    requires { from ≤ length tokens.now.tokens }
    ensures value { Reads tokens.now result (typed_at (left_from tokens.now from)) }
    ensures forth { IfOk result (λ read. (from < read.1) × (read.1 ≤ length tokens.now.tokens)) }
{
    let ((run, before), at) = words(alloc, tokens, from)?;
    let (constant, at) = constant(tokens, at)?;
    let (kind, at) = read_stored_type(alloc, tokens, at)?;
    let typed = Typed {
        run,
        before,
        constant,
        kind,
    };
    Ok((typed, at))
}

/// Whether `constant` stands there; else `global` does.
#[tactic(auto, unfolding(crate::specs::GlobalReading::constant_at))]
fn constant(tokens: &Tokens<'_>, from: usize) -> Result<(bool, usize), ItemFault>
    requires { from ≤ length tokens.now.tokens }
    ensures value { Reads tokens.now result (constant_at (left_from tokens.now from)) }
    ensures forth { IfOk result (λ read. (from < read.1) × (read.1 ≤ length tokens.now.tokens)) }
{
    if starts_keyword(tokens, from, b"constant") {
        let at = behind_keyword(tokens, from, b"constant")?;
        Ok((true, at))
    } else {
        let at = behind_keyword(tokens, from, b"global")?;
        Ok((false, at))
    }
}

/// The initialiser, where the global doesn't stand outside the module.
#[tactic(auto, unfolding(crate::specs::GlobalReading::initialiser_at))]
fn initialiser_if(
    alloc: Global,
    tokens: &Tokens<'_>,
    from: usize,
    external: bool,
) -> Result<(Option<Init>, usize), ItemFault>
    requires { from ≤ length tokens.now.tokens }
    ensures value { Reads tokens.now result (initialiser_at external (left_from tokens.now from)) }
    ensures forth { IfOk result (λ read. (from ≤ read.1) × (read.1 ≤ length tokens.now.tokens)) }
{
    if external {
        return Ok((None, from));
    }
    let (value, at) = initialiser(alloc, tokens, from)?;
    Ok((Some(value), at))
}

/// Runs of words, each behind a comma, and attachments.
fn tail(alloc: Global, tokens: &Tokens<'_>, from: usize) -> Result<(Tail, usize), ItemFault>
    requires { from ≤ length tokens.now.tokens }
    ensures value { Reads tokens.now result (tail_at (left_from tokens.now from)) }
    ensures forth { IfOk result (λ read. (from ≤ read.1) × (read.1 ≤ length tokens.now.tokens)) }
{
    let mut after = Items::new(alloc);
    let mut ending = GlobalEnding::Whole;
    let mut at = from;
    'runs: while starts_run(tokens, at) {
        let (next, behind) = next_run(alloc, tokens, at)?;
        after.push(next.1)?;
        ending = GlobalEnding::Words(next.0.ending);
        at = behind;
    }
    if !starts_sign(tokens, at, b',') {
        return Ok((Tail { after, ending }, at));
    }
    let at = some_attached(alloc, tokens, at)?;
    let ending = GlobalEnding::Whole;
    Ok((Tail { after, ending }, at))
}

/// Whether a run of words stands next, behind a comma: the kind of an attachment behind a comma begins attachments.
fn starts_run(tokens: &Tokens<'_>, from: usize) -> bool
    ensures { result ≡ begins_run (left_from tokens.now from) }
{
    starts_sign(tokens, from, b',') && !starts_metadata_word(tokens, from + 1)
}

/// A comma and a run of words.
#[tactic(auto, unfolding(crate::specs::TailReading::next_run_at))]
fn next_run(
    alloc: Global,
    tokens: &Tokens<'_>,
    from: usize,
) -> Result<((Run, Text), usize), ItemFault>
    requires { from ≤ length tokens.now.tokens }
    ensures value { Reads tokens.now result (next_run_at (left_from tokens.now from)) }
    ensures forth { IfOk result (λ read. (from < read.1) × (read.1 ≤ length tokens.now.tokens)) }
{
    let at = behind_sign(tokens, from, b',')?;
    words(alloc, tokens, at)
}

/// The place behind attachments, of which there is one at least.
#[tactic(auto, unfolding(crate::specs::TailReading::some_attached_at))]
fn some_attached(alloc: Global, tokens: &Tokens<'_>, from: usize) -> Result<usize, ItemFault>
    requires { from ≤ length tokens.now.tokens }
    ensures value { Passes tokens.now result (some_attached_at (left_from tokens.now from)) }
    ensures forth { IfOk result (λ at. (from < at) × (at ≤ length tokens.now.tokens)) }
{
    let at = behind_sign(tokens, from, b',')?;
    let at = skip_bare_attachment(alloc, tokens, at)?;
    skip_metadata(alloc, tokens, at)
}
