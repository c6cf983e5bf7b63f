//! Callees of calls that are intrinsic functions.

ghost use Rattle.std.specs.Prelude.{◌≡◌, ◌↔◌, ◌<◌, ◌≤◌, IsTrue, IfOk, length, take};
ghost use Rattle.ir_lex.specs.Tokenized.{lexemes};
ghost use Rattle.ir_parts.specs.Reading.{left_from, begins, Passes};
ghost use Rattle.ir_left_out.specs.Begun.{is_intrinsic_token, EndsCall, CallsIntrinsic, begun_call_at};

use crate::begun::last_call;
use ir_grammar::is_intrinsic as names_intrinsic;
use ir_lex::Tokens;
use ir_parts::{ItemFault, behind_keyword, read_global_name, read_returned_type, run};
use std::alloc::{AllocError, Global};

/// Whether the token at a place is the callee of a call, and its name begins `llvm.`.
pub(crate) fn is_intrinsic_callee(
    alloc: Global,
    tokens: &Tokens<'_>,
    at: usize,
) -> Result<bool, AllocError>
    requires { at < length tokens.now.tokens }
    ensures { IfOk result (λ is. IsTrue is ↔ CallsIntrinsic (take at (lexemes tokens.now)) (left_from tokens.now at)) }
{
    if is_intrinsic(alloc, tokens, at)? {
        ends_call(alloc, tokens, at)
    } else {
        Ok(false)
    }
}

/// Whether the token at a place is a global whose name begins `llvm.`.
fn is_intrinsic(alloc: Global, tokens: &Tokens<'_>, at: usize) -> Result<bool, AllocError>
    requires { at ≤ length tokens.now.tokens }
    ensures { IfOk result (λ is. is ≡ begins is_intrinsic_token (left_from tokens.now at)) }
{
    match read_global_name(alloc, tokens, at) {
        Ok((name, _)) => Ok(names_intrinsic(name.as_slice())),
        Err(ItemFault::CannotGoOn { .. }) => Ok(false),
        Err(ItemFault::OutOfMemory) => Err(AllocError),
    }
}

/// Whether the tokens before a place end with `call`, its passed-on words and its type.
fn ends_call(alloc: Global, tokens: &Tokens<'_>, at: usize) -> Result<bool, AllocError>
    requires { at ≤ length tokens.now.tokens }
    ensures { IfOk result (λ ends. IsTrue ends ↔ EndsCall (take at (lexemes tokens.now))) }
{
    match behind_begun(alloc, tokens, last_call(tokens, at)) {
        Ok(behind) => Ok(behind == at),
        Err(ItemFault::CannotGoOn { .. }) => Ok(false),
        Err(ItemFault::OutOfMemory) => Err(AllocError),
    }
}

/// The place behind `call` with its passed-on words and its type.
#[tactic(auto, unfolding(crate::specs::Begun::begun_call_at))]
fn behind_begun(alloc: Global, tokens: &Tokens<'_>, from: usize) -> Result<usize, ItemFault>
    requires { from ≤ length tokens.now.tokens }
    ensures value { Passes tokens.now result (begun_call_at (left_from tokens.now from)) }
    ensures forth { IfOk result (λ at. (from < at) × (at ≤ length tokens.now.tokens)) }
{
    let at = behind_keyword(tokens, from, b"call")?;
    let (_, at) = run(alloc, tokens, at)?;
    let (_, at) = read_returned_type(tokens, at)?;
    Ok(at)
}
