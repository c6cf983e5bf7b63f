//! Declarations of functions without a body.

ghost use Rattle.std.specs.Prelude.{◌≡◌, ◌<◌, ◌≤◌, length, IfOk};
ghost use Rattle.ir_parts.specs.Reading.{left_from, Reads};
ghost use Rattle.ir_parts.specs.Sentences.{Tells};
ghost use Rattle.ir_items.specs.DeclaredReading.{one_param_at, some_params_at, next_param_at, no_params_at, closed_params_at, taken_params_at, declare_head_at, dropped_declare_at, kept_declare_at, behind_head_at, declare_at, SpellsDeclareIfAny};

use ir_grammar::is_dropped_name;
use ir_lex::Tokens;
use ir_model::{Declare, DeclaredParam, IrType, Text};
use ir_parts::{
    Ending, ItemFault, Run, behind_keyword, behind_sign, parentheses, read_global_name,
    read_returned_type, read_scalar_type, run, skip_pairs, starts_sign, words,
};
use sqlite_items::Items;
use std::alloc::Global;

type Head = ((Run, Text), (IrType, Text));

/// A declaration, or none where it is of a function whose calls are dropped; how the words behind its parameters end;
/// and the place behind them.
///
/// A fault stands at the first token with which no declaration goes on. Memory is taken for the names, the words and
/// the brackets that are open.
pub fn read_declare(
    alloc: Global,
    tokens: &Tokens<'_>,
    from: usize,
) -> Result<((Option<Declare>, Ending), usize), ItemFault>
    requires { from ≤ length tokens.now.tokens }
    ensures sentence { Tells (λ ended. SpellsDeclareIfAny ended.0) tokens.now from result }
    ensures value { Reads tokens.now result (declare_at (left_from tokens.now from)) }
    ensures forth { IfOk result (λ read. (from < read.1) × (read.1 ≤ length tokens.now.tokens)) }
{
    declare(alloc, tokens, from)
}

#[tactic(auto, unfolding(crate::specs::DeclaredReading::declare_at))]
fn declare(
    alloc: Global,
    tokens: &Tokens<'_>,
    from: usize,
) -> Result<((Option<Declare>, Ending), usize), ItemFault>
    requires { from ≤ length tokens.now.tokens }
    ensures value { Reads tokens.now result (declare_at (left_from tokens.now from)) }
    ensures forth { IfOk result (λ read. (from < read.1) × (read.1 ≤ length tokens.now.tokens)) }
{
    let (head, at) = head(alloc, tokens, from)?;
    behind_head(alloc, tokens, at, head)
}

/// `declare`, dropped metadata, words, the type that is returned, and the name.
#[tactic(auto, unfolding(crate::specs::DeclaredReading::declare_head_at))]
fn head(alloc: Global, tokens: &Tokens<'_>, from: usize) -> Result<(Head, usize), ItemFault>
    requires { from ≤ length tokens.now.tokens }
    ensures value { Reads tokens.now result (declare_head_at (left_from tokens.now from)) }
    ensures forth { IfOk result (λ read. (from < read.1) × (read.1 ≤ length tokens.now.tokens)) }
{
    let at = behind_keyword(tokens, from, b"declare")?;
    let at = skip_pairs(tokens, at)?;
    let (before, at) = words(alloc, tokens, at)?;
    let (ret, at) = read_returned_type(tokens, at)?;
    let (name, at) = read_global_name(alloc, tokens, at)?;
    Ok(((before, (ret, name)), at))
}

#[tactic(auto, unfolding(crate::specs::DeclaredReading::behind_head_at))]
fn behind_head(
    alloc: Global,
    tokens: &Tokens<'_>,
    from: usize,
    head: Head,
) -> Result<((Option<Declare>, Ending), usize), ItemFault>
    requires { from ≤ length tokens.now.tokens }
    ensures value { Reads tokens.now result (behind_head_at head (left_from tokens.now from)) }
    ensures forth { IfOk result (λ read. (from < read.1) × (read.1 ≤ length tokens.now.tokens)) }
{
    if is_dropped_name(head.1.1.as_slice()) {
        dropped(alloc, tokens, from)
    } else {
        kept(alloc, tokens, from, head)
    }
}

/// What stands behind the name of a declaration that is dropped.
#[tactic(auto, unfolding(crate::specs::DeclaredReading::dropped_declare_at))]
fn dropped(
    alloc: Global,
    tokens: &Tokens<'_>,
    from: usize,
) -> Result<((Option<Declare>, Ending), usize), ItemFault>
    requires { from ≤ length tokens.now.tokens }
    ensures value { Reads tokens.now result (dropped_declare_at (left_from tokens.now from)) }
    ensures forth { IfOk result (λ read. (from < read.1) × (read.1 ≤ length tokens.now.tokens)) }
{
    let at = parentheses(alloc, tokens, from)?;
    let (after, at) = run(alloc, tokens, at)?;
    Ok(((None, after.ending), at))
}

/// The same of one that is kept: parameters and words.
#[tactic(auto, unfolding(crate::specs::DeclaredReading::kept_declare_at))]
fn kept(
    alloc: Global,
    tokens: &Tokens<'_>,
    from: usize,
    head: Head,
) -> Result<((Option<Declare>, Ending), usize), ItemFault>
    requires { from ≤ length tokens.now.tokens }
    ensures value { Reads tokens.now result (kept_declare_at head (left_from tokens.now from)) }
    ensures forth { IfOk result (λ read. (from < read.1) × (read.1 ≤ length tokens.now.tokens)) }
{
    let at = behind_sign(tokens, from, b'(')?;
    let (params, at) = params(alloc, tokens, at)?;
    let ((run, after), at) = words(alloc, tokens, at)?;
    let ((_, before), (ret, name)) = head;
    let declare = Declare {
        before,
        ret,
        name,
        params,
        after,
    };
    Ok(((Some(declare), run.ending), at))
}

/// The parameters with commas between them, and the place behind the `)`.
#[tactic(auto, unfolding(crate::specs::DeclaredReading::taken_params_at, crate::specs::DeclaredReading::no_params_at))]
fn params(
    alloc: Global,
    tokens: &Tokens<'_>,
    from: usize,
) -> Result<(Items<DeclaredParam>, usize), ItemFault>
    requires { from ≤ length tokens.now.tokens }
    ensures value { Reads tokens.now result (taken_params_at (left_from tokens.now from)) }
    ensures forth { IfOk result (λ read. (from < read.1) × (read.1 ≤ length tokens.now.tokens)) }
{
    if starts_sign(tokens, from, b')') {
        let at = behind_sign(tokens, from, b')')?;
        Ok((Items::new(alloc), at))
    } else {
        closed_params(alloc, tokens, from)
    }
}

#[tactic(auto, unfolding(crate::specs::DeclaredReading::closed_params_at))]
fn closed_params(
    alloc: Global,
    tokens: &Tokens<'_>,
    from: usize,
) -> Result<(Items<DeclaredParam>, usize), ItemFault>
    requires { from ≤ length tokens.now.tokens }
    ensures value { Reads tokens.now result (closed_params_at (left_from tokens.now from)) }
    ensures forth { IfOk result (λ read. (from < read.1) × (read.1 ≤ length tokens.now.tokens)) }
{
    let (params, at) = some_params(alloc, tokens, from)?;
    let at = behind_sign(tokens, at, b')')?;
    Ok((params, at))
}

/// One parameter or more, with commas between them.
fn some_params(
    alloc: Global,
    tokens: &Tokens<'_>,
    from: usize,
) -> Result<(Items<DeclaredParam>, usize), ItemFault>
    requires { from ≤ length tokens.now.tokens }
    ensures value { Reads tokens.now result (some_params_at (left_from tokens.now from)) }
    ensures forth { IfOk result (λ read. (from < read.1) × (read.1 ≤ length tokens.now.tokens)) }
{
    let mut params = Items::new(alloc);
    let (first, behind) = param(alloc, tokens, from)?;
    params.push(first)?;
    let mut at = behind;
    'params: while starts_sign(tokens, at, b',') {
        let (next, behind) = next_param(alloc, tokens, at)?;
        params.push(next)?;
        at = behind;
    }
    Ok((params, at))
}

/// A comma and a parameter.
#[tactic(auto, unfolding(crate::specs::DeclaredReading::next_param_at))]
fn next_param(
    alloc: Global,
    tokens: &Tokens<'_>,
    from: usize,
) -> Result<(DeclaredParam, usize), ItemFault>
    requires { from ≤ length tokens.now.tokens }
    ensures value { Reads tokens.now result (next_param_at (left_from tokens.now from)) }
    ensures forth { IfOk result (λ read. (from < read.1) × (read.1 ≤ length tokens.now.tokens)) }
{
    let at = behind_sign(tokens, from, b',')?;
    param(alloc, tokens, at)
}

/// A parameter: its type and words.
#[tactic(auto, unfolding(crate::specs::DeclaredReading::one_param_at, crate::specs::DeclaredReading::declared_param_at))]
fn param(
    alloc: Global,
    tokens: &Tokens<'_>,
    from: usize,
) -> Result<(DeclaredParam, usize), ItemFault>
    requires { from ≤ length tokens.now.tokens }
    ensures value { Reads tokens.now result (one_param_at (left_from tokens.now from)) }
    ensures forth { IfOk result (λ read. (from < read.1) × (read.1 ≤ length tokens.now.tokens)) }
{
    let (kind, at) = read_scalar_type(tokens, from)?;
    let ((_, words), at) = words(alloc, tokens, at)?;
    Ok((DeclaredParam { kind, words }, at))
}
