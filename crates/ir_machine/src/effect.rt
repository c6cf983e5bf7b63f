//! What an operation that is no terminator does, and where a terminator leads.

ghost use Rattle.std.specs.Prelude.{◌≡◌, ℕ, ◌≤◌, ◌-◌, ◌^◌, All, IfOk, OnErr};
ghost use Rattle.ir_model.specs.declared.op.TypedOperand.{TypedOperand as AnyTyped};
ghost use Rattle.ir_meaning.specs.declared.choice.Choice.{Choice as AnyChoice};
ghost use Rattle.ir_meaning.specs.State.{State};
ghost use Rattle.ir_meaning.specs.Operands.{chosen};
ghost use Rattle.ir_meaning.specs.Step.{computed as meaning, effect as meaning_of_effect};
ghost use Rattle.ir_machine.specs.Stands.{register};
ghost use Rattle.ir_memory.specs.Memory.{Memory};
ghost use Rattle.ir_machine.specs.Narrow.{IsNarrow, IsNarrowOp, IsAccessed, IsAlloca};
ghost use Rattle.ir_machine.specs.Effects.{meant, meant_effect, Does, KeepsUnlessGone};

use crate::accesses::{allocate, load, store};
use crate::addresses::address;
use crate::calls::call;
use crate::computations::{
    computed_binary, computed_call, computed_cast, computed_freeze, computed_icmp, computed_select,
};
use crate::operations::Flags;
use crate::phase::Phase;
use ir_meaning::{Choice, Value};
use ir_memory::Blocks;
use ir_model::{IrType, MinMax, Op, Operand, TypedOperand};
use scev_base::{BlockId, Width};
use std::alloc::AllocError;

/// What follows from operands.
#[derive(Clone, Copy, Debug)]
pub(crate) enum Computed {
    /// A value is given.
    Gives(Value),
    /// The behaviour is undefined.
    Undefined,
    /// An operand has no value of its type, or the operation has no meaning.
    Stuck,
}

/// What was done by an operation that is no terminator.
#[derive(Clone, Copy, Debug)]
pub(crate) enum Done {
    /// Control goes on, with the value that is given, if any.
    Goes(Option<Value>),
    /// The run ends.
    Ends(Phase),
    /// An operand has no value of its type, or the operation has no meaning.
    Stuck,
}

/// What a terminator does.
#[derive(Clone, Copy, Debug)]
pub(crate) enum Way {
    /// Control goes to a block.
    Enters(BlockId),
    /// The function returns.
    Returns(Option<Value>),
    /// The behaviour is undefined.
    Undefined,
    /// An operand has no value of its type, or the operation is no terminator.
    Stuck,
}

/// Carries out an operation that is no terminator on memory and the count of events, with what is chosen. The error
/// comes only where there is no memory for the block of an `alloca`, and then nothing changes.
pub(crate) fn effect_of(
    registers: &[Option<Value>],
    memory: &mut Blocks,
    events: &mut u64,
    choice: Choice,
    op: &Op,
) -> Result<Done, AllocError>
    requires { IsNarrowOp op.now }
    ensures does { IfOk result (λ done. (s : State) → s.registers ≡ register registers.now → s.memory ≡ memory.old
        → events.old ≤ 2 ^ 64 - 1 → Does done memory.new events.old events.new (meaning_of_effect choice s op.now)) }
    ensures kept { IfOk result (λ done. KeepsUnlessGone done memory.old memory.new) }
    ensures err { OnErr result ((memory.new ≡ memory.old) × (events.new ≡ events.old)) }
    ensures want { OnErr result (IsAlloca op.now) }
{
    let n = choice.number();
    match op {
        Op::Alloca { kind } => {
            let x = allocate(memory, kind)?;
            Ok(Done::Goes(Some(x)))
        }
        Op::Load { kind, from } => Ok(read(load_of(registers, memory, n, kind, from))),
        Op::Store { kind, value, to } => Ok(store_of(registers, memory, n, kind, value, to)),
        Op::Gep {
            inbounds,
            kind,
            base,
            indices,
        } => Ok(read(address(
            registers,
            memory,
            n,
            *inbounds,
            kind,
            base,
            indices.as_slice(),
        ))),
        Op::Call { ret, callee, args } => Ok(call_of(
            registers,
            memory,
            events,
            choice,
            ret,
            callee.as_slice(),
            args.as_slice(),
        )),
        _ => Ok(read(computed_of(registers, n, op))),
    }
}

/// What `load` gives at a type.
fn load_of(
    registers: &[Option<Value>],
    memory: &Blocks,
    n: u64,
    kind: &IrType,
    from: &Operand,
) -> Computed
    requires { IsAccessed kind.now }
    ensures { (choice : AnyChoice) (s : State) → n ≡ chosen choice → s.registers ≡ register registers.now
        → s.memory ≡ memory.now
        → meant_effect result memory.now ≡ meaning_of_effect choice s (Op.Load kind.now from.now) }
{
    match kind {
        IrType::Int(bits) => load(registers, memory, n, Width { bits: *bits }, from),
        IrType::Void | IrType::Ptr | IrType::Array(_, _) => Computed::Stuck,
    }
}

/// Carries out `store` at a type.
fn store_of(
    registers: &[Option<Value>],
    memory: &mut Blocks,
    n: u64,
    kind: &IrType,
    value: &Operand,
    to: &Operand,
) -> Done
    requires { IsAccessed kind.now }
    ensures does { (choice : AnyChoice) (s : State) (events : ℕ) → events ≤ 2 ^ 64 - 1 → n ≡ chosen choice
        → s.registers ≡ register registers.now → s.memory ≡ memory.old
        → Does result memory.new events events (meaning_of_effect choice s (Op.Store kind.now value.now to.now)) }
    ensures kept { KeepsUnlessGone result memory.old memory.new }
{
    match kind {
        IrType::Int(bits) => store(registers, memory, n, Width { bits: *bits }, value, to),
        IrType::Void | IrType::Ptr | IrType::Array(_, _) => Done::Stuck,
    }
}

/// Carries out a call, of a minimum or a maximum or of the outside. One of the outside is counted where it returns.
fn call_of(
    registers: &[Option<Value>],
    memory: &mut Blocks,
    events: &mut u64,
    choice: Choice,
    ret: &IrType,
    callee: &[u8],
    args: &[TypedOperand],
) -> Done
    requires ret { IsNarrow ret.now }
    requires args { All (λ (typed : AnyTyped). IsNarrow typed.kind) args.now }
    ensures does { (s : State) → s.registers ≡ register registers.now → s.memory ≡ memory.old
        → events.old ≤ 2 ^ 64 - 1 → Does result memory.new events.old events.new
        (meaning_of_effect choice s (Op.Call ret.now callee.now args.now)) }
    ensures kept { KeepsUnlessGone result memory.old memory.new }
{
    if MinMax::named(callee).is_some() {
        let n = choice.number();
        return read(computed_call(registers, n, ret, callee, args));
    }
    let done = call(registers, memory, choice, ret, args);
    if matches!(done, Done::Goes(_)) {
        *events = events.saturating_add(1);
    }
    done
}

/// What was done where memory stays.
fn read(computed: Computed) -> Done
    ensures { (memory : Memory) (events : ℕ) → events ≤ 2 ^ 64 - 1
        → Does result memory events events (meant_effect computed memory) }
{
    match computed {
        Computed::Gives(x) => Done::Goes(Some(x)),
        Computed::Undefined => Done::Ends(Phase::Undefined),
        Computed::Stuck => Done::Stuck,
    }
}

/// What an operation gives that is computed from its operands, with the registers and the number that `undef` takes.
fn computed_of(registers: &[Option<Value>], n: u64, op: &Op) -> Computed
    requires { IsNarrowOp op.now }
    ensures { meant result ≡ meaning (register registers.now) n op.now }
{
    match op {
        Op::Binary {
            op,
            nuw,
            nsw,
            exact,
            disjoint,
            kind,
            left,
            right,
        } => {
            let flags = Flags {
                nuw: *nuw,
                nsw: *nsw,
                exact: *exact,
                disjoint: *disjoint,
            };
            computed_binary(registers, n, *op, flags, kind, left, right)
        }
        Op::Icmp {
            pred,
            kind,
            left,
            right,
        } => computed_icmp(registers, n, *pred, kind, left, right),
        Op::Cast {
            op,
            nneg,
            from,
            value,
            to,
        } => computed_cast(registers, n, *op, *nneg, from, value, to),
        Op::Select { cond, yes, no } => computed_select(registers, n, cond, yes, no),
        Op::Freeze { kind, value } => computed_freeze(registers, n, kind, value),
        Op::Call { ret, callee, args } => {
            computed_call(registers, n, ret, callee.as_slice(), args.as_slice())
        }
        Op::Phi { .. } | Op::Alloca { .. } | Op::Load { .. } => Computed::Stuck,
        Op::Store { .. } | Op::Gep { .. } => Computed::Stuck,
        Op::Jump { .. } | Op::Branch { .. } | Op::Switch { .. } => Computed::Stuck,
        Op::Ret { .. } | Op::Unreachable => Computed::Stuck,
    }
}
