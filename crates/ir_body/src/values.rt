//! Conversions and choices, from behind their opcode, with the attachments behind them.

ghost use Rattle.std.specs.Prelude.{◌≡◌, ◌<◌, ◌≤◌, length, IfOk};
ghost use Rattle.ir_parts.specs.Reading.{left_from, ReadsAs};
ghost use Rattle.ir_parts.specs.Places.{mentions_at};
ghost use Rattle.ir_body.specs.Values.{cast_at, select_at};
ghost use Rattle.ir_body.specs.Operation.{attached};
ghost use Rattle.ir_body.specs.Views.{bare_operation, operation_sites};

use crate::flags::read_cast_flags;
use crate::operands::{read_operand, read_typed};
use crate::operation::Operation;
use ir_lex::Tokens;
use ir_model::{CastOp, Op};
use ir_parts::{ItemFault, behind_keyword, behind_sign, read_scalar_type, skip_metadata};
use sqlite_items::Items;
use std::alloc::Global;

/// Flags, an operand with its type, `to`, a type, and attachments.
#[tactic(auto, unfolding(crate::specs::Values::cast_at), using(crate::proofs::Told::told))]
pub(crate) fn read_cast(
    alloc: Global,
    tokens: &Tokens<'_>,
    from: usize,
    op: CastOp,
) -> Result<(Operation, usize), ItemFault>
    requires { from ≤ length tokens.now.tokens }
    ensures value { ReadsAs (λ x. (bare_operation x, mentions_at tokens.now (operation_sites x))) tokens.now result
        (attached (cast_at op) (left_from tokens.now from)) }
    ensures forth { IfOk result (λ read. (from < read.1) × (read.1 ≤ length tokens.now.tokens)) }
{
    let (nneg, at) = read_cast_flags(tokens, from, op);
    let (typed, at) = read_typed(tokens, at)?;
    let at = behind_keyword(tokens, at, b"to")?;
    let (to, at) = read_scalar_type(tokens, at)?;
    let at = skip_metadata(alloc, tokens, at)?;
    let op = Op::Cast {
        op,
        nneg,
        from: typed.kind,
        value: typed.value,
        to,
    };
    let words = Items::new(alloc);
    Ok((Operation { op, words }, at))
}

/// `i1`, an operand, two operands with their types, and attachments.
#[tactic(auto, unfolding(crate::specs::Values::select_at), using(crate::proofs::Told::told))]
pub(crate) fn read_select(
    alloc: Global,
    tokens: &Tokens<'_>,
    from: usize,
) -> Result<(Operation, usize), ItemFault>
    requires { from ≤ length tokens.now.tokens }
    ensures value { ReadsAs (λ x. (bare_operation x, mentions_at tokens.now (operation_sites x))) tokens.now result
        (attached select_at (left_from tokens.now from)) }
    ensures forth { IfOk result (λ read. (from < read.1) × (read.1 ≤ length tokens.now.tokens)) }
{
    let at = behind_keyword(tokens, from, b"i1")?;
    let (cond, at) = read_operand(tokens, at)?;
    let at = behind_sign(tokens, at, b',')?;
    let (yes, at) = read_typed(tokens, at)?;
    let at = behind_sign(tokens, at, b',')?;
    let (no, at) = read_typed(tokens, at)?;
    let at = skip_metadata(alloc, tokens, at)?;
    let op = Op::Select { cond, yes, no };
    let words = Items::new(alloc);
    Ok((Operation { op, words }, at))
}
