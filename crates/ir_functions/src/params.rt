//! Parameters.

ghost use Rattle.std.specs.Prelude.{◌≡◌, ◌<◌, ◌≤◌, None, length, IfOk};
ghost use Rattle.ir_text.specs.Said.{said_local};
ghost use Rattle.ir_parts.specs.Reading.{left_from, ReadsAs};
ghost use Rattle.ir_parts.specs.Places.{said_at, mentions_at};
ghost use Rattle.ir_functions.specs.Functions.{name_at, param_name_at, param_at};
ghost use Rattle.ir_functions.specs.Views.{bare_name, name_sites, bare_read_param, param_sites};

use crate::definitions::definition;
use ir_lex::Tokens;
use ir_model::Param;
use ir_parts::{Ending, ItemFault, read_scalar_type, starts_local, words};
use scev_base::ValueId;
use std::alloc::Global;

/// A parameter: its type, its words, and its name or none. Where no name stands behind the words, how they end.
#[tactic(auto, unfolding(crate::specs::Functions::param_at), using(ir_body::proofs::Told::told))]
pub(crate) fn param(
    alloc: Global,
    tokens: &Tokens<'_>,
    from: usize,
) -> Result<((Param, Option<Ending>), usize), ItemFault>
    requires { from ≤ length tokens.now.tokens }
    ensures value { ReadsAs (λ p. (bare_read_param p, mentions_at tokens.now (param_sites p))) tokens.now
        result (param_at (left_from tokens.now from)) }
    ensures forth { IfOk result (λ read. (from < read.1) × (read.1 ≤ length tokens.now.tokens)) }
{
    let (kind, at) = read_scalar_type(tokens, from)?;
    let ((run, text), at) = words(alloc, tokens, at)?;
    let ((value, named), at) = param_name(tokens, at, from)?;
    let tail = if named { None } else { Some(run.ending) };
    let param = Param {
        kind,
        words: text,
        value,
    };
    Ok(((param, tail), at))
}

/// The name of a parameter, or none: then its id is the place where the parameter begins, at which no name stands.
#[tactic(auto, unfolding(crate::specs::Functions::param_name_at, crate::specs::Functions::no_name_at))]
fn param_name(
    tokens: &Tokens<'_>,
    from: usize,
    first: usize,
) -> Result<((ValueId, bool), usize), ItemFault>
    requires within { from ≤ length tokens.now.tokens }
    requires nameless { said_at said_local tokens.now first ≡ None }
    ensures value { ReadsAs (λ p. (bare_name p, mentions_at tokens.now (name_sites p))) tokens.now
        result (param_name_at (left_from tokens.now from)) }
    ensures forth { IfOk result (λ read. (from ≤ read.1) × (read.1 ≤ length tokens.now.tokens)) }
{
    if starts_local(tokens, from) {
        name(tokens, from)
    } else {
        Ok(((ValueId(first as u64), false), from))
    }
}

#[tactic(auto, unfolding(crate::specs::Functions::name_at), using(ir_body::proofs::Told::told))]
fn name(tokens: &Tokens<'_>, from: usize) -> Result<((ValueId, bool), usize), ItemFault>
    requires { from ≤ length tokens.now.tokens }
    ensures value { ReadsAs (λ p. (bare_name p, mentions_at tokens.now (name_sites p))) tokens.now
        result (name_at (left_from tokens.now from)) }
    ensures forth { IfOk result (λ read. (from ≤ read.1) × (read.1 ≤ length tokens.now.tokens)) }
{
    let (value, at) = definition(tokens, from)?;
    Ok(((value, true), at))
}
