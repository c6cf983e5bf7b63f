//! What stands before a function's parameters, and what stands between them and the body.

ghost use Rattle.std.specs.Prelude.{◌≡◌, ◌<◌, ◌≤◌, [], length, IfOk};
ghost use Rattle.ir_parts.specs.Reading.{left_from, ReadsAs};
ghost use Rattle.ir_functions.specs.Functions.{signature_at, opening_at};

use ir_lex::Tokens;
use ir_model::{IrType, Text};
use ir_parts::{
    ItemFault, Run, behind_keyword, behind_sign, read_global_name, read_returned_type, skip_pairs,
    words,
};
use std::alloc::Global;

/// Passed-on words behind `define`, the type that is returned, and the function's name.
#[tactic(auto, unfolding(crate::specs::Functions::signature_at))]
pub(crate) fn signature(
    alloc: Global,
    tokens: &Tokens<'_>,
    from: usize,
) -> Result<(((Run, Text), (IrType, Text)), usize), ItemFault>
    requires { from ≤ length tokens.now.tokens }
    ensures value { ReadsAs (λ read. (read, [])) tokens.now result (signature_at (left_from tokens.now from)) }
    ensures forth { IfOk result (λ read. (from < read.1) × (read.1 ≤ length tokens.now.tokens)) }
{
    let at = behind_keyword(tokens, from, b"define")?;
    let (before, at) = words(alloc, tokens, at)?;
    let (ret, at) = read_returned_type(tokens, at)?;
    let (name, at) = read_global_name(alloc, tokens, at)?;
    Ok(((before, (ret, name)), at))
}

/// Passed-on words behind the parameters, dropped metadata, and the `{`.
#[tactic(auto, unfolding(crate::specs::Functions::opening_at))]
pub(crate) fn opening(
    alloc: Global,
    tokens: &Tokens<'_>,
    from: usize,
) -> Result<((Run, Text), usize), ItemFault>
    requires { from ≤ length tokens.now.tokens }
    ensures value { ReadsAs (λ read. (read, [])) tokens.now result (opening_at (left_from tokens.now from)) }
    ensures forth { IfOk result (λ read. (from < read.1) × (read.1 ≤ length tokens.now.tokens)) }
{
    let (after, at) = words(alloc, tokens, from)?;
    let at = skip_pairs(tokens, at)?;
    let at = behind_sign(tokens, at, b'{')?;
    Ok((after, at))
}
