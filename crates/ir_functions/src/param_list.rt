//! All parameters of a function.

ghost use Rattle.std.specs.Prelude.{◌<◌, ◌≤◌, length, IfOk};
ghost use Rattle.ir_parts.specs.Reading.{left_from, ReadsAs};
ghost use Rattle.ir_parts.specs.Places.{mentions_at};
ghost use Rattle.ir_functions.specs.Functions.{taken_params_at, some_params_at, next_param_at};
ghost use Rattle.ir_functions.specs.Views.{bare_read_param, param_sites, bare_params, params_sites};

use crate::params::param;
use ir_lex::Tokens;
use ir_model::Param;
use ir_parts::{Ending, ItemFault, behind_sign, starts_sign};
use sqlite_items::Items;
use std::alloc::Global;

/// The parameters with commas between them, and the place behind the `)`.
#[tactic(auto, unfolding(crate::specs::Functions::taken_params_at), using(ir_body::proofs::Told::told))]
pub(crate) fn read_params(
    alloc: Global,
    tokens: &Tokens<'_>,
    from: usize,
) -> Result<(Items<Param>, usize), ItemFault>
    requires { from ≤ length tokens.now.tokens }
    ensures value { ReadsAs (λ params. (bare_params params, mentions_at tokens.now (params_sites params))) tokens.now
        result (taken_params_at (left_from tokens.now from)) }
    ensures forth { IfOk result (λ read. (from < read.1) × (read.1 ≤ length tokens.now.tokens)) }
{
    if starts_sign(tokens, from, b')') {
        let at = behind_sign(tokens, from, b')')?;
        return Ok((Items::new(alloc), at));
    }
    let (params, at) = some_params(alloc, tokens, from)?;
    let at = behind_sign(tokens, at, b')')?;
    Ok((params, at))
}

/// One parameter or more.
fn some_params(
    alloc: Global,
    tokens: &Tokens<'_>,
    from: usize,
) -> Result<(Items<Param>, usize), ItemFault>
    requires { from ≤ length tokens.now.tokens }
    ensures value { ReadsAs (λ params. (bare_params params, mentions_at tokens.now (params_sites params))) tokens.now
        result (some_params_at (left_from tokens.now from)) }
    ensures forth { IfOk result (λ read. (from < read.1) × (read.1 ≤ length tokens.now.tokens)) }
{
    let mut params = Items::new(alloc);
    let (first, behind) = param(alloc, tokens, from)?;
    params.push(first.0)?;
    let mut at = behind;
    'params: while starts_sign(tokens, at, b',') {
        let (next, behind) = next_param(alloc, tokens, at)?;
        params.push(next.0)?;
        at = behind;
    }
    Ok((params, at))
}

/// A comma and a parameter.
#[tactic(auto, unfolding(crate::specs::Functions::next_param_at))]
fn next_param(
    alloc: Global,
    tokens: &Tokens<'_>,
    from: usize,
) -> Result<((Param, Option<Ending>), usize), ItemFault>
    requires { from ≤ length tokens.now.tokens }
    ensures value { ReadsAs (λ p. (bare_read_param p, mentions_at tokens.now (param_sites p))) tokens.now
        result (next_param_at (left_from tokens.now from)) }
    ensures forth { IfOk result (λ read. (from < read.1) × (read.1 ≤ length tokens.now.tokens)) }
{
    let at = behind_sign(tokens, from, b',')?;
    param(alloc, tokens, at)
}
