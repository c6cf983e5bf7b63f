//! Instructions.

ghost use Rattle.std.specs.Prelude.{◌≡◌, ◌++◌, OnOk};
ghost use Rattle.ir_grammar.specs.Printing.{op_text, result_text, instr_text};
ghost use Rattle.ir_printer.specs.Shown.{shown};

use crate::binary::push_of_two;
use crate::call::push_call;
use crate::control::push_control;
use crate::given::push_given;
use crate::memory::push_of_memory;
use crate::shown::{Names, push_value_name};
use ir_model::{Instr, Op, Text};
use scev_base::ValueId;
use std::alloc::AllocError;

/// Appends an operation with its passed-on words.
#[tactic(auto, unfolding(ir_grammar::specs::Printing::op_text))]
fn push_op(out: &mut Vec<u8>, names: &Names<'_>, op: &Op, words: &[Text]) -> Result<(), AllocError>
    ensures { OnOk result (out.new.items ≡ out.old.items ++ op_text (shown names.now) op.now words.now) }
{
    match op {
        Op::Binary { .. } => push_of_two(out, names, op),
        Op::Icmp { .. } => push_of_two(out, names, op),
        Op::Cast { .. } => push_given(out, names, op),
        Op::Select { .. } => push_given(out, names, op),
        Op::Phi { .. } => push_given(out, names, op),
        Op::Freeze { .. } => push_given(out, names, op),
        Op::Alloca { .. } => push_of_memory(out, names, op, words),
        Op::Load { .. } => push_of_memory(out, names, op, words),
        Op::Store { .. } => push_of_memory(out, names, op, words),
        Op::Gep { .. } => push_of_memory(out, names, op, words),
        Op::Call { ret, callee, args } => {
            push_call(out, names, ret, callee.as_slice(), args.as_slice(), words)
        }
        Op::Jump { .. } => push_control(out, names, op),
        Op::Branch { .. } => push_control(out, names, op),
        Op::Switch { .. } => push_control(out, names, op),
        Op::Ret { .. } => push_control(out, names, op),
        Op::Unreachable => push_control(out, names, op),
    }
}

/// Appends `%name = `, where there is a result.
fn push_result(
    out: &mut Vec<u8>,
    names: &Names<'_>,
    given: Option<ValueId>,
) -> Result<(), AllocError>
    ensures { OnOk result (out.new.items ≡ out.old.items ++ result_text (shown names.now) given) }
{
    if let Some(value) = given {
        push_value_name(out, names, value)?;
        out.extend_from_slice(b" = ")?;
    }
    Ok(())
}

/// Appends an instruction's line.
pub fn push_instr(out: &mut Vec<u8>, names: &Names<'_>, instr: &Instr) -> Result<(), AllocError>
    ensures { OnOk result (out.new.items ≡ out.old.items ++ instr_text (shown names.now) instr.now) }
{
    out.extend_from_slice(b"  ")?;
    push_result(out, names, instr.result)?;
    push_op(out, names, &instr.op, instr.words.as_slice())?;
    out.push(b'\n')?;
    Ok(())
}
