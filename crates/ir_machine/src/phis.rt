//! The phis of a block that control enters, all at once.

ghost use Rattle.std.specs.Prelude.{◌≡◌, false, All, Contains, IfSome, IfNone, option_map, length, if◌then◌else◌};
ghost use Rattle.ir_meaning.specs.State.{set as with_result};
ghost use Rattle.ir_meaning.specs.Step.{entry_from as operand_from, phi_value as value_of_phi, with_phis};
ghost use Rattle.ir_machine.specs.Stands.{register};
ghost use Rattle.ir_machine.specs.Narrow.{IsNarrowOp, HasAgreeing, HasPlace};
ghost use Rattle.ir_machine.specs.Taken.{taken, taken_one};

use crate::operand::operand_value;
use ir_meaning::Value;
use ir_model::{Instr, Op, Operand, PhiEntry};
use scev_base::{BlockId, ValueId};

/// Carries out the phis of a block that control enters from another: all are read before one is set. It
/// answers whether each has a value; if not, no register changes. What the room holds is of no account.
pub(crate) fn carry_out_phis(
    registers: &mut [Option<Value>],
    room: &mut [Option<Value>],
    n: u64,
    from: BlockId,
    phis: &[Instr],
) -> bool
    requires narrow { All (λ phi. IsNarrowOp phi.op) phis.now }
    requires agree { All (λ phi. HasAgreeing phi.op) phis.now }
    requires within { All (λ phi. HasPlace (length registers.old) phi.result) phis.now }
    requires room { length room.old ≡ length registers.old }
    ensures exact { with_phis (register registers.old) n from.0 phis.now (register registers.old)
        ≡ (if result then Some (register registers.new) else None) }
    ensures kept { result ≡ false → registers.new ≡ registers.old }
{
    let all = read_phis(registers, room, n, from, phis);
    if all {
        take_results(registers, room, phis);
    }
    all
}

/// Sets the register of a result, where there is one.
pub(crate) fn set(registers: &mut [Option<Value>], target: Option<ValueId>, x: Value)
    requires { HasPlace (length registers.old) target }
    ensures { register registers.new ≡ with_result (register registers.old) target x }
{
    if let Some(v) = target {
        registers[v.0 as usize] = Some(x);
    }
}

/// Reads the values of phis and sets their results in the room. It stops at a phi without a value, and
/// answers whether there is none. Each phi looks for its entry first where the one before found its own.
fn read_phis(
    registers: &[Option<Value>],
    room: &mut [Option<Value>],
    n: u64,
    from: BlockId,
    phis: &[Instr],
) -> bool
    requires narrow { All (λ phi. IsNarrowOp phi.op) phis.now }
    requires agree { All (λ phi. HasAgreeing phi.op) phis.now }
    requires within { All (λ phi. HasPlace (length room.old) phi.result) phis.now }
    ensures { with_phis (register registers.now) n from.0 phis.now (register room.old)
        ≡ (if result then Some (register room.new) else None) }
{
    let mut at = 0;
    for phi in phis {
        match phi_value(registers, n, from, at, &phi.op) {
            Some((x, found)) => {
                set(room, phi.result, x);
                at = found;
            }
            None => return false,
        }
    }
    true
}

/// Sets the result of each phi to what the room holds for it.
fn take_results(registers: &mut [Option<Value>], room: &[Option<Value>], phis: &[Instr])
    requires within { All (λ phi. HasPlace (length registers.old) phi.result) phis.now }
    requires room { length room.now ≡ length registers.old }
    ensures { register registers.new ≡ taken (register room.now) phis.now (register registers.old) }
{
    for phi in phis {
        take_result(registers, room, phi.result);
    }
}

/// Sets a result, where there is one, to what the room holds for it.
fn take_result(registers: &mut [Option<Value>], room: &[Option<Value>], target: Option<ValueId>)
    requires within { HasPlace (length registers.old) target }
    requires room { length room.now ≡ length registers.old }
    ensures { register registers.new ≡ taken_one (register room.now) target (register registers.old) }
{
    if let Some(v) = target {
        registers[v.0 as usize] = room[v.0 as usize];
    }
}

/// The value of a phi where control comes from a block, and the position of an entry for it, which is looked for first
/// at a given one. It is None where the phi has no entry for the block, or the entry has no value.
fn phi_value(
    registers: &[Option<Value>],
    n: u64,
    from: BlockId,
    first: usize,
    op: &Op,
) -> Option<(Value, usize)>
    requires narrow { IsNarrowOp op.now }
    requires agree { HasAgreeing op.now }
    ensures { option_map (λ found. found.0) result ≡ value_of_phi (register registers.now) n from.0 op.now }
{
    let Op::Phi { kind, entries } = op else {
        return None;
    };
    let (operand, at) = entry_from(from, first, entries.as_slice())?;
    let x = operand_value(registers, n, kind, &operand)?;
    Some((x, at))
}

/// The operand of an entry for the block that control comes from, and its position: the given one if its entry is for
/// the block, else that of the first entry for it. It is None where there is none.
fn entry_from(from: BlockId, first: usize, entries: &[PhiEntry]) -> Option<(Operand, usize)>
    ensures none { IfNone result (operand_from from.0 entries.now ≡ None) }
    ensures found { IfSome result (λ found. Contains entries.now (record { value = found.0; from = from })) }
{
    if let Some(entry) = entries.get(first) {
        if entry.from == from {
            return Some((entry.value, first));
        }
    }
    let at = entries.iter().position(|entry| entry.from == from)?;
    Some((entries[at].value, at))
}
