//! Operations of two operands, and comparisons.

ghost use Rattle.std.specs.Prelude.{◌≡◌, [], ◌∷◌, ◌++◌, codes, OnOk};
ghost use Rattle.ir_grammar.specs.Operations.{binary_text, pred_text};
ghost use Rattle.ir_grammar.specs.Printing.{flag_word, op_text};
ghost use Rattle.ir_printer.specs.Kinds.{OfTwo, kind_of};
ghost use Rattle.ir_printer.specs.Shown.{shown};

use crate::operand::push_two;
use crate::shown::Names;
use crate::words::push_flag;
use ir_model::{BinOp, Op};
use scev_base::Pred;
use std::alloc::AllocError;

/// The name of an operation of two operands.
fn text_of_binary(op: BinOp) -> &'static [u8]
    ensures { result.now ≡ binary_text op }
{
    match op {
        BinOp::Add => b"add",
        BinOp::Sub => b"sub",
        BinOp::Mul => b"mul",
        BinOp::Shl => b"shl",
        BinOp::Udiv => b"udiv",
        BinOp::Sdiv => b"sdiv",
        BinOp::Lshr => b"lshr",
        BinOp::Ashr => b"ashr",
        BinOp::Urem => b"urem",
        BinOp::Srem => b"srem",
        BinOp::And => b"and",
        BinOp::Xor => b"xor",
        BinOp::Or => b"or",
    }
}

/// The name of a predicate.
fn text_of_pred(pred: Pred) -> &'static [u8]
    ensures { result.now ≡ pred_text pred }
{
    match pred {
        Pred::Eq => b"eq",
        Pred::Ne => b"ne",
        Pred::Ugt => b"ugt",
        Pred::Uge => b"uge",
        Pred::Ult => b"ult",
        Pred::Ule => b"ule",
        Pred::Sgt => b"sgt",
        Pred::Sge => b"sge",
        Pred::Slt => b"slt",
        Pred::Sle => b"sle",
    }
}

/// Appends the flags of an operation, each with a space behind it.
fn push_flags(
    out: &mut Vec<u8>,
    nuw: bool,
    nsw: bool,
    exact: bool,
    disjoint: bool,
) -> Result<(), AllocError>
    ensures { OnOk result (out.new.items ≡ out.old.items ++ (flag_word nuw (codes "nuw")
        ++ (flag_word nsw (codes "nsw")
        ++ (flag_word exact (codes "exact") ++ flag_word disjoint (codes "disjoint"))))) }
{
    push_flag(out, nuw, b"nuw")?;
    push_flag(out, nsw, b"nsw")?;
    push_flag(out, exact, b"exact")?;
    push_flag(out, disjoint, b"disjoint")
}

/// Appends an operation of two operands, or a comparison.
#[tactic(auto, unfolding(ir_grammar::specs::Printing::op_text))]
pub fn push_of_two(out: &mut Vec<u8>, names: &Names<'_>, op: &Op) -> Result<(), AllocError>
    requires { kind_of op.now ≡ OfTwo }
    ensures { OnOk result (out.new.items ≡ out.old.items ++ op_text (shown names.now) op.now []) }
{
    match op {
        Op::Binary {
            op,
            nuw,
            nsw,
            exact,
            disjoint,
            kind,
            left,
            right,
        } => {
            out.extend_from_slice(text_of_binary(*op))?;
            out.push(b' ')?;
            push_flags(out, *nuw, *nsw, *exact, *disjoint)?;
            push_two(out, names, kind, *left, *right)
        }
        Op::Icmp {
            pred,
            kind,
            left,
            right,
        } => {
            out.extend_from_slice(b"icmp ")?;
            out.extend_from_slice(text_of_pred(*pred))?;
            out.push(b' ')?;
            push_two(out, names, kind, *left, *right)
        }
        _ => unreachable!(),
    }
}
