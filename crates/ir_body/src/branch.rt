//! Branches and returns, from behind their opcode, with the attachments behind them.

ghost use Rattle.std.specs.Prelude.{◌≡◌, ◌<◌, ◌≤◌, length, IfOk};
ghost use Rattle.ir_parts.specs.Reading.{left_from, ReadsAs};
ghost use Rattle.ir_parts.specs.Places.{mentions_at};
ghost use Rattle.ir_body.specs.Plain.{jump_at, branch_at, br_at, nothing_returned_at, value_returned_at, ret_at};
ghost use Rattle.ir_body.specs.Operation.{attached};
ghost use Rattle.ir_body.specs.Views.{bare_operation, operation_sites};

use crate::operands::{read_operand, read_target, read_typed};
use crate::operation::Operation;
use ir_lex::Tokens;
use ir_model::Op;
use ir_parts::{ItemFault, behind_keyword, behind_sign, skip_metadata, starts_keyword};
use sqlite_items::Items;
use std::alloc::Global;

/// A jump or a branch, and attachments.
#[tactic(auto, using(crate::proofs::Told::told))]
pub(crate) fn read_br(
    alloc: Global,
    tokens: &Tokens<'_>,
    from: usize,
) -> Result<(Operation, usize), ItemFault>
    requires { from ≤ length tokens.now.tokens }
    ensures value { ReadsAs (λ x. (bare_operation x, mentions_at tokens.now (operation_sites x))) tokens.now result
        (attached br_at (left_from tokens.now from)) }
    ensures forth { IfOk result (λ read. (from < read.1) × (read.1 ≤ length tokens.now.tokens)) }
{
    let (operation, at) = br(alloc, tokens, from)?;
    let at = skip_metadata(alloc, tokens, at)?;
    Ok((operation, at))
}

/// What stands behind `br`.
#[tactic(auto, unfolding(crate::specs::Plain::br_at))]
fn br(alloc: Global, tokens: &Tokens<'_>, from: usize) -> Result<(Operation, usize), ItemFault>
    requires { from ≤ length tokens.now.tokens }
    ensures value { ReadsAs (λ x. (bare_operation x, mentions_at tokens.now (operation_sites x))) tokens.now result
        (br_at (left_from tokens.now from)) }
    ensures forth { IfOk result (λ read. (from < read.1) × (read.1 ≤ length tokens.now.tokens)) }
{
    if starts_keyword(tokens, from, b"label") {
        jump(alloc, tokens, from)
    } else {
        branch(alloc, tokens, from)
    }
}

#[tactic(auto, unfolding(crate::specs::Plain::jump_at), using(crate::proofs::Told::told))]
fn jump(alloc: Global, tokens: &Tokens<'_>, from: usize) -> Result<(Operation, usize), ItemFault>
    requires { from ≤ length tokens.now.tokens }
    ensures value { ReadsAs (λ x. (bare_operation x, mentions_at tokens.now (operation_sites x))) tokens.now result
        (jump_at (left_from tokens.now from)) }
    ensures forth { IfOk result (λ read. (from < read.1) × (read.1 ≤ length tokens.now.tokens)) }
{
    let (to, at) = read_target(tokens, from)?;
    let op = Op::Jump { to };
    let words = Items::new(alloc);
    Ok((Operation { op, words }, at))
}

#[tactic(auto, unfolding(crate::specs::Plain::branch_at), using(crate::proofs::Told::told))]
fn branch(alloc: Global, tokens: &Tokens<'_>, from: usize) -> Result<(Operation, usize), ItemFault>
    requires { from ≤ length tokens.now.tokens }
    ensures value { ReadsAs (λ x. (bare_operation x, mentions_at tokens.now (operation_sites x))) tokens.now result
        (branch_at (left_from tokens.now from)) }
    ensures forth { IfOk result (λ read. (from < read.1) × (read.1 ≤ length tokens.now.tokens)) }
{
    let at = behind_keyword(tokens, from, b"i1")?;
    let (cond, at) = read_operand(tokens, at)?;
    let at = behind_sign(tokens, at, b',')?;
    let (yes, at) = read_target(tokens, at)?;
    let at = behind_sign(tokens, at, b',')?;
    let (no, at) = read_target(tokens, at)?;
    let op = Op::Branch { cond, yes, no };
    let words = Items::new(alloc);
    Ok((Operation { op, words }, at))
}

/// A return, and attachments.
#[tactic(auto, using(crate::proofs::Told::told))]
pub(crate) fn read_ret(
    alloc: Global,
    tokens: &Tokens<'_>,
    from: usize,
) -> Result<(Operation, usize), ItemFault>
    requires { from ≤ length tokens.now.tokens }
    ensures value { ReadsAs (λ x. (bare_operation x, mentions_at tokens.now (operation_sites x))) tokens.now result
        (attached ret_at (left_from tokens.now from)) }
    ensures forth { IfOk result (λ read. (from < read.1) × (read.1 ≤ length tokens.now.tokens)) }
{
    let (operation, at) = ret(alloc, tokens, from)?;
    let at = skip_metadata(alloc, tokens, at)?;
    Ok((operation, at))
}

/// What stands behind `ret`.
#[tactic(auto, unfolding(crate::specs::Plain::ret_at))]
fn ret(alloc: Global, tokens: &Tokens<'_>, from: usize) -> Result<(Operation, usize), ItemFault>
    requires { from ≤ length tokens.now.tokens }
    ensures value { ReadsAs (λ x. (bare_operation x, mentions_at tokens.now (operation_sites x))) tokens.now result
        (ret_at (left_from tokens.now from)) }
    ensures forth { IfOk result (λ read. (from < read.1) × (read.1 ≤ length tokens.now.tokens)) }
{
    if starts_keyword(tokens, from, b"void") {
        nothing_returned(alloc, tokens, from)
    } else {
        value_returned(alloc, tokens, from)
    }
}

#[tactic(auto, unfolding(crate::specs::Plain::nothing_returned_at), using(crate::proofs::Told::told))]
fn nothing_returned(
    alloc: Global,
    tokens: &Tokens<'_>,
    from: usize,
) -> Result<(Operation, usize), ItemFault>
    requires { from ≤ length tokens.now.tokens }
    ensures value { ReadsAs (λ x. (bare_operation x, mentions_at tokens.now (operation_sites x))) tokens.now result
        (nothing_returned_at (left_from tokens.now from)) }
    ensures forth { IfOk result (λ read. (from < read.1) × (read.1 ≤ length tokens.now.tokens)) }
{
    let at = behind_keyword(tokens, from, b"void")?;
    let op = Op::Ret { value: None };
    let words = Items::new(alloc);
    Ok((Operation { op, words }, at))
}

#[tactic(auto, unfolding(crate::specs::Plain::value_returned_at), using(crate::proofs::Told::told))]
fn value_returned(
    alloc: Global,
    tokens: &Tokens<'_>,
    from: usize,
) -> Result<(Operation, usize), ItemFault>
    requires { from ≤ length tokens.now.tokens }
    ensures value { ReadsAs (λ x. (bare_operation x, mentions_at tokens.now (operation_sites x))) tokens.now result
        (value_returned_at (left_from tokens.now from)) }
    ensures forth { IfOk result (λ read. (from < read.1) × (read.1 ≤ length tokens.now.tokens)) }
{
    let (typed, at) = read_typed(tokens, from)?;
    let op = Op::Ret { value: Some(typed) };
    let words = Items::new(alloc);
    Ok((Operation { op, words }, at))
}
