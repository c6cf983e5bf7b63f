//! Operations of two operands, comparisons and `freeze`, from behind their opcode, with the attachments behind them.

ghost use Rattle.std.specs.Prelude.{◌≡◌, ◌<◌, ◌≤◌, length, IfOk};
ghost use Rattle.ir_parts.specs.Reading.{left_from, ReadsAs};
ghost use Rattle.ir_parts.specs.Places.{mentions_at};
ghost use Rattle.ir_body.specs.Plain.{binary_at, comparison_at, freeze_at};
ghost use Rattle.ir_body.specs.Operation.{attached};
ghost use Rattle.ir_body.specs.Views.{bare_operation, operation_sites};

use crate::flags::{behind_dropped, read_flags};
use crate::opcode::read_predicate;
use crate::operands::{read_two, read_typed};
use crate::operation::Operation;
use ir_lex::Tokens;
use ir_model::{BinOp, Op};
use ir_parts::{ItemFault, skip_metadata};
use sqlite_items::Items;
use std::alloc::Global;

/// Flags, two operands, and attachments.
#[tactic(auto, unfolding(crate::specs::Plain::binary_at), using(crate::proofs::Told::told))]
pub(crate) fn read_binary(
    alloc: Global,
    tokens: &Tokens<'_>,
    from: usize,
    op: BinOp,
) -> Result<(Operation, usize), ItemFault>
    requires { from ≤ length tokens.now.tokens }
    ensures value { ReadsAs (λ x. (bare_operation x, mentions_at tokens.now (operation_sites x))) tokens.now result
        (attached (binary_at op) (left_from tokens.now from)) }
    ensures forth { IfOk result (λ read. (from < read.1) × (read.1 ≤ length tokens.now.tokens)) }
{
    let (flags, at) = read_flags(tokens, from, op);
    let (two, at) = read_two(tokens, at)?;
    let at = skip_metadata(alloc, tokens, at)?;
    let op = Op::Binary {
        op,
        nuw: flags.nuw,
        nsw: flags.nsw,
        exact: flags.exact,
        disjoint: flags.disjoint,
        kind: two.kind,
        left: two.left,
        right: two.right,
    };
    let words = Items::new(alloc);
    Ok((Operation { op, words }, at))
}

/// `samesign` or nothing, a predicate, two operands, and attachments.
#[tactic(auto, unfolding(crate::specs::Plain::comparison_at), using(crate::proofs::Told::told))]
pub(crate) fn read_comparison(
    alloc: Global,
    tokens: &Tokens<'_>,
    from: usize,
) -> Result<(Operation, usize), ItemFault>
    requires { from ≤ length tokens.now.tokens }
    ensures value { ReadsAs (λ x. (bare_operation x, mentions_at tokens.now (operation_sites x))) tokens.now result
        (attached comparison_at (left_from tokens.now from)) }
    ensures forth { IfOk result (λ read. (from < read.1) × (read.1 ≤ length tokens.now.tokens)) }
{
    let at = behind_dropped(tokens, from, b"samesign");
    let (pred, at) = read_predicate(tokens, at)?;
    let (two, at) = read_two(tokens, at)?;
    let at = skip_metadata(alloc, tokens, at)?;
    let op = Op::Icmp {
        pred,
        kind: two.kind,
        left: two.left,
        right: two.right,
    };
    let words = Items::new(alloc);
    Ok((Operation { op, words }, at))
}

/// An operand with its type, and attachments.
#[tactic(auto, unfolding(crate::specs::Plain::freeze_at), using(crate::proofs::Told::told))]
pub(crate) fn read_freeze(
    alloc: Global,
    tokens: &Tokens<'_>,
    from: usize,
) -> Result<(Operation, usize), ItemFault>
    requires { from ≤ length tokens.now.tokens }
    ensures value { ReadsAs (λ x. (bare_operation x, mentions_at tokens.now (operation_sites x))) tokens.now result
        (attached freeze_at (left_from tokens.now from)) }
    ensures forth { IfOk result (λ read. (from < read.1) × (read.1 ≤ length tokens.now.tokens)) }
{
    let (typed, at) = read_typed(tokens, from)?;
    let at = skip_metadata(alloc, tokens, at)?;
    let op = Op::Freeze {
        kind: typed.kind,
        value: typed.value,
    };
    let words = Items::new(alloc);
    Ok((Operation { op, words }, at))
}
