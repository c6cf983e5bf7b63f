//! What ends a block.

ghost use Rattle.std.specs.Prelude.{◌≡◌, [], ◌∷◌, ◌++◌, codes, OnOk};
ghost use Rattle.std.specs.List.{flat_map};
ghost use Rattle.ir_grammar.specs.Printing.{case_text, op_text};
ghost use Rattle.ir_printer.specs.Kinds.{OfControl, kind_of};
ghost use Rattle.ir_printer.specs.Shown.{shown};

use crate::numeral::push_numeral;
use crate::operand::{push_condition, push_of_type, push_target, push_typed};
use crate::shown::Names;
use crate::types::push_type;
use ir_model::{Case, Op};
use std::alloc::AllocError;

/// Appends a case of a switch.
fn push_case(out: &mut Vec<u8>, names: &Names<'_>, case: &Case) -> Result<(), AllocError>
    ensures { OnOk result (out.new.items ≡ out.old.items ++ case_text (shown names.now) case.now) }
{
    push_type(out, &case.kind)?;
    out.push(b' ')?;
    push_numeral(out, &case.kind, case.number)?;
    out.extend_from_slice(b", ")?;
    push_target(out, names, case.to)
}

/// Appends the cases of a switch in brackets, a space before each.
fn push_cases(out: &mut Vec<u8>, names: &Names<'_>, cases: &[Case]) -> Result<(), AllocError>
    ensures { OnOk result (out.new.items ≡ out.old.items
        ++ (codes " [" ++ (flat_map (λ c. 32 ∷ case_text (shown names.now) c) cases.now ++ codes " ]"))) }
{
    out.extend_from_slice(b" [")?;
    for case in cases {
        out.push(b' ')?;
        push_case(out, names, case)?;
    }
    out.extend_from_slice(b" ]")
}

/// Appends what ends a block.
#[tactic(auto, unfolding(ir_grammar::specs::Printing::op_text))]
pub fn push_control(out: &mut Vec<u8>, names: &Names<'_>, op: &Op) -> Result<(), AllocError>
    requires { kind_of op.now ≡ OfControl }
    ensures { OnOk result (out.new.items ≡ out.old.items ++ op_text (shown names.now) op.now []) }
{
    match op {
        Op::Jump { to } => {
            out.extend_from_slice(b"br ")?;
            push_target(out, names, *to)
        }
        Op::Branch { cond, yes, no } => {
            out.extend_from_slice(b"br ")?;
            push_condition(out, names, *cond)?;
            out.extend_from_slice(b", ")?;
            push_target(out, names, *yes)?;
            out.extend_from_slice(b", ")?;
            push_target(out, names, *no)
        }
        Op::Switch {
            kind,
            value,
            other,
            cases,
        } => {
            out.extend_from_slice(b"switch ")?;
            push_of_type(out, names, kind, *value)?;
            out.extend_from_slice(b", ")?;
            push_target(out, names, *other)?;
            push_cases(out, names, cases.as_slice())
        }
        Op::Ret { value: None } => out.extend_from_slice(b"ret void"),
        Op::Ret { value: Some(typed) } => {
            out.extend_from_slice(b"ret ")?;
            push_typed(out, names, typed)
        }
        Op::Unreachable => out.extend_from_slice(b"unreachable"),
        _ => unreachable!(),
    }
}
