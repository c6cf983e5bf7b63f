//! Addresses in objects.

ghost use Rattle.std.specs.Prelude.{◌≡◌, ℕ, ◌%◌, ◌^◌, All, List, option_map, slice_get};
ghost use Rattle.ir_model.specs.declared.types.IrType.TheVariants.{Ptr};
ghost use Rattle.ir_model.specs.declared.op.TypedOperand.{TypedOperand as AnyTyped};
ghost use Rattle.ir_meaning.specs.Operands.{operand_value};
ghost use Rattle.ir_meaning.specs.Effects.{with_operand, with_operands};
ghost use Rattle.ir_meaning.specs.Accesses.{index_steps, index_value as value_of_index, index_values};
ghost use Rattle.ir_meaning.specs.Accesses.{address_at as address_of, addressed};
ghost use Rattle.ir_machine.specs.Stands.{register};
ghost use Rattle.ir_machine.specs.Narrow.{IsNarrow};
ghost use Rattle.ir_machine.specs.Effects.{meant_effect, moved_by, moved_more, meant_move, bytes_moved};

use crate::accesses::{array_size, int_size};
use crate::effect::Computed;
use crate::operand::{integer_value, pointer_value};
use ir_meaning::Value;
use ir_memory::Blocks;
use ir_model::{IrType, Operand, TypedOperand};
use scev_base::{Width, sext};

/// How far indices move an address.
#[derive(Clone, Copy, Debug)]
pub(crate) enum Moved {
    /// By so many bytes, modulo 2^64.
    By(u64),
    /// One of them is poison.
    Poison,
    /// One of them has no value.
    Stuck,
}

/// What `getelementptr` gives (LLVM Language Reference, "getelementptr Instruction").
pub(crate) fn address(
    registers: &[Option<Value>],
    memory: &Blocks,
    n: u64,
    inbounds: bool,
    kind: &IrType,
    base: &Operand,
    indices: &[TypedOperand],
) -> Computed
    requires { All (λ (typed : AnyTyped). IsNarrow typed.kind) indices.now }
    ensures { meant_effect result memory.now ≡ with_operand
        (operand_value (register registers.now) n Ptr base.now) (λ p. with_operands
        (index_values (register registers.now) n indices.now) (addressed memory.now inbounds kind.now p)) }
{
    let Some(base) = pointer_value(registers, base) else {
        return Computed::Stuck;
    };
    match move_of(registers, n, kind, indices) {
        Moved::By(bytes) => Computed::Gives(address_at(memory, inbounds, base, bytes)),
        Moved::Poison => Computed::Gives(Value::Poison),
        Moved::Stuck => Computed::Stuck,
    }
}

/// The address so many bytes from a base, modulo 2^64. With `inbounds` it is poison where it leaves 0 to the block's
/// size, and at null where it isn't null.
fn address_at(memory: &Blocks, inbounds: bool, base: Value, bytes: u64) -> Value
    ensures { (parts : List (ℕ × ℕ)) → bytes ≡ bytes_moved parts
        → result ≡ address_of memory.now inbounds base parts }
{
    match base {
        Value::Pointer { block, offset } => {
            let offset = offset.wrapping_add(bytes);
            if inbounds && offset > memory.size(block).unwrap_or(0) {
                Value::Poison
            } else {
                Value::Pointer { block, offset }
            }
        }
        Value::Null => {
            if inbounds && bytes != 0 {
                Value::Poison
            } else {
                Value::Null
            }
        }
        Value::Number(_) | Value::Poison => Value::Poison,
    }
}

/// How far the indices of a type move an address. Indices behind the steps of the type move nothing.
fn move_of(registers: &[Option<Value>], n: u64, kind: &IrType, indices: &[TypedOperand]) -> Moved
    requires { All (λ (typed : AnyTyped). IsNarrow typed.kind) indices.now }
    ensures { meant_move result ≡ moved_by (register registers.now) n (index_steps kind.now) indices.now }
{
    let mut moved = Moved::By(0);
    for at in (0..indices.len()).rev() {
        let x = index_value(registers, n, &indices[at]);
        moved = moved_with(x, index_step(kind, at), moved);
    }
    moved
}

/// How far an index and those behind it move an address, with the bytes that it steps, if any.
fn moved_with(x: Option<Value>, step: Option<u64>, behind: Moved) -> Moved
    ensures { meant_move result ≡ moved_more x step (meant_move behind) }
{
    match (x, step, behind) {
        (None, _, _) | (_, _, Moved::Stuck) => Moved::Stuck,
        (Some(_), None, _) => behind,
        (Some(Value::Number(k)), Some(step), Moved::By(bytes)) => {
            Moved::By(bytes.wrapping_add(k.wrapping_mul(step)))
        }
        _ => Moved::Poison,
    }
}

/// An index, read as signed and brought to 64 bits.
fn index_value(registers: &[Option<Value>], n: u64, typed: &TypedOperand) -> Option<Value>
    requires { IsNarrow typed.now.kind }
    ensures { result ≡ value_of_index (register registers.now) n typed.now typed.now.kind }
{
    let IrType::Int(bits) = &typed.kind else {
        return None;
    };
    let w = Width { bits: *bits };
    match integer_value(registers, n, w, &typed.value)? {
        Value::Number(k) => Some(Value::Number(sext(k, w, Width { bits: 64 }))),
        x => Some(x),
    }
}

/// How many bytes the index at a place steps, modulo 2^64. None comes exactly where the type has no such index.
fn index_step(kind: &IrType, at: usize) -> Option<u64>
    ensures { result ≡ option_map (λ step. step % 2 ^ 64) (slice_get (index_steps kind.now) at) }
{
    match kind {
        IrType::Array(dims, w) => Some(array_size(dims.as_slice().get(at..)?, *w)),
        IrType::Int(w) if at == 0 => Some(int_size(*w)),
        IrType::Int(_) | IrType::Void | IrType::Ptr => None,
    }
}
