//! Calls of the outside.

ghost use Rattle.std.specs.Prelude.{◌≡◌, ℕ, List, All, is_some, if◌then◌else◌};
ghost use Rattle.ir_model.specs.declared.op.TypedOperand.{TypedOperand as AnyTyped};
ghost use Rattle.ir_meaning.specs.State.{State};
ghost use Rattle.ir_meaning.specs.Values.{fits};
ghost use Rattle.ir_meaning.specs.Calls.{argument_values, value_answers, answer_of_number, answered, outside_call};
ghost use Rattle.ir_meaning.specs.Calls.{answer_given as given_answer, may_answer as may_be_answer};
ghost use Rattle.ir_machine.specs.Stands.{register};
ghost use Rattle.ir_machine.specs.Narrow.{IsNarrow};
ghost use Rattle.ir_machine.specs.Effects.{IsCallOf, KeepsUnlessGone};

use crate::effect::Done;
use crate::operand::{is_integer, operand_value};
use crate::phase::Phase;
use ir_meaning::{Choice, Value};
use ir_memory::Blocks;
use ir_model::{IrType, TypedOperand};
use scev_base::{Width, trunc};

/// Carries out a call of the outside with what is chosen (LLVM Language Reference, "call Instruction"): the outside
/// answers a value and new contents of memory, or never returns. What can't be an answer counts as the number 0.
pub(crate) fn call(
    registers: &[Option<Value>],
    memory: &mut Blocks,
    choice: Choice,
    ret: &IrType,
    args: &[TypedOperand],
) -> Done
    requires ret { IsNarrow ret.now }
    requires args { All (λ (typed : AnyTyped). IsNarrow typed.kind) args.now }
    ensures does { (s : State) (callee : List ℕ) → s.registers ≡ register registers.now → s.memory ≡ memory.old
        → IsCallOf result memory.new (outside_call s callee args.now (answered choice ret.now memory.old)) }
    ensures kept { KeepsUnlessGone result memory.old memory.new }
{
    match choice {
        Choice::Silent => {
            if have_values(registers, 0, args) {
                Done::Ends(Phase::Stopped)
            } else {
                Done::Stuck
            }
        }
        Choice::Number(n) => answer_number(registers, n, ret, args),
        Choice::Answer(n, x, contents) => {
            if !may_answer(memory, ret, x, &contents) {
                return answer_number(registers, 0, ret, args);
            }
            if !have_values(registers, n, args) {
                return Done::Stuck;
            }
            *memory = contents;
            Done::Goes(answer_given(ret, x))
        }
    }
}

/// A call that answers a number.
fn answer_number(registers: &[Option<Value>], n: u64, ret: &IrType, args: &[TypedOperand]) -> Done
    requires ret { IsNarrow ret.now }
    requires args { All (λ (typed : AnyTyped). IsNarrow typed.kind) args.now }
    ensures { result ≡ (if is_some (argument_values (register registers.now) n args.now)
        then Done.Goes (answer_of_number ret.now n) else Done.Stuck) }
{
    if have_values(registers, n, args) {
        Done::Goes(number_answered(ret, n))
    } else {
        Done::Stuck
    }
}

/// The answer where a number is chosen: it modulo 2^w, or null.
fn number_answered(ret: &IrType, n: u64) -> Option<Value>
    requires { IsNarrow ret.now }
    ensures { result ≡ answer_of_number ret.now n }
{
    match ret {
        IrType::Int(bits) => Some(Value::Number(trunc(n, Width { bits: *bits }))),
        IrType::Ptr => Some(Value::Null),
        IrType::Void | IrType::Array(_, _) => None,
    }
}

/// The answer that was given: none of a call of type `void`.
fn answer_given(ret: &IrType, x: Value) -> Option<Value>
    ensures { result ≡ given_answer ret.now x }
{
    match ret {
        IrType::Void => None,
        IrType::Int(_) | IrType::Ptr | IrType::Array(_, _) => Some(x),
    }
}

/// Whether a value and new contents may be an answer.
fn may_answer(memory: &Blocks, ret: &IrType, x: Value, contents: &Blocks) -> bool
    requires { IsNarrow ret.now }
    ensures { result ≡ may_be_answer memory.now ret.now x contents.now }
{
    contents.bytes_fit();
    value_may_answer(memory, ret, x) && contents.has_sizes_of(memory)
}

/// Whether a value fits a call's type.
fn value_may_answer(memory: &Blocks, ret: &IrType, x: Value) -> bool
    requires { IsNarrow ret.now }
    ensures { result ≡ value_answers memory.now ret.now x }
{
    match ret {
        IrType::Void => true,
        IrType::Int(bits) => is_integer(x, Width { bits: *bits }),
        IrType::Ptr => points_into(memory, x),
        IrType::Array(_, _) => false,
    }
}

/// Whether a value is a pointer to a block, null or poison.
fn points_into(memory: &Blocks, x: Value) -> bool
    ensures { result ≡ fits memory.now IrType.Ptr x }
{
    match x {
        Value::Pointer { block, .. } => block < memory.len() as u64,
        Value::Null | Value::Poison => true,
        Value::Number(_) => false,
    }
}

/// Whether each operand has a value of its type.
fn have_values(registers: &[Option<Value>], n: u64, operands: &[TypedOperand]) -> bool
    requires { All (λ (typed : AnyTyped). IsNarrow typed.kind) operands.now }
    ensures { result ≡ is_some (argument_values (register registers.now) n operands.now) }
{
    operands.iter().all(|typed| operand_value(registers, n, &typed.kind, &typed.value).is_some())
}
