//! Blocks of memory, loads and stores.

ghost use Rattle.std.specs.Prelude.{◌≡◌, ◌<◌, ◌%◌, ◌^◌, IfOk, OnErr, Some, None, []};
ghost use Rattle.std.specs.Option.{SomeIff};
ghost use Rattle.ir_model.specs.declared.types.IrType.TheVariants.{Int, Ptr};
ghost use Rattle.ir_rules.specs.Limits.{array_size as size_of_array, int_size as bytes_of_int};
ghost use Rattle.ir_memory.specs.Spelling.{IsAccessWidth};
ghost use Rattle.ir_meaning.specs.Operands.{operand_value};
ghost use Rattle.ir_meaning.specs.Effects.{Goes, with_operand};
ghost use Rattle.ir_meaning.specs.Accesses.{type_size as bytes_of_type, allocated, loaded_at, stored_at};
ghost use Rattle.ir_meaning.specs.Accesses.{value_loaded as loaded_value, value_stored as stored_value};
ghost use Rattle.ir_machine.specs.Stands.{register};
ghost use Rattle.ir_machine.specs.Effects.{meant_effect, Does, KeepsUnlessGone};

use crate::effect::{Computed, Done};
use crate::operand::{integer_value, pointer_value};
use crate::phase::Phase;
use ir_meaning::Value;
use ir_memory::{Blocks, Loaded};
use ir_model::{IrType, Operand};
use scev_base::Width;
use std::alloc::AllocError;

/// A pointer to a new last block of the type's size, in which nothing is written (LLVM Language Reference, "alloca
/// Instruction"). Where no memory is found for it nothing changes.
pub(crate) fn allocate(memory: &mut Blocks, kind: &IrType) -> Result<Value, AllocError>
    ensures ok { IfOk result (λ x. Goes (Some x) memory.new [] ≡ allocated memory.old kind.now) }
    ensures err { OnErr result (memory.new ≡ memory.old) }
{
    let Some(size) = bytes_in_memory(kind) else {
        return Err(AllocError);
    };
    let block = memory.add_block(size)?;
    Ok(Value::Pointer { block, offset: 0 })
}

/// What `load` gives (LLVM Language Reference, "load Instruction").
pub(crate) fn load(
    registers: &[Option<Value>],
    memory: &Blocks,
    n: u64,
    w: Width,
    from: &Operand,
) -> Computed
    requires { IsAccessWidth w.bits }
    ensures { meant_effect result memory.now ≡ with_operand
        (operand_value (register registers.now) n Ptr from.now) (loaded_at memory.now w.bits n) }
{
    match pointer_value(registers, from) {
        Some(Value::Pointer { block, offset }) => match memory.load(block, offset, w, n) {
            Ok(loaded) => Computed::Gives(value_loaded(loaded)),
            Err(_) => Computed::Undefined,
        },
        Some(_) => Computed::Undefined,
        None => Computed::Stuck,
    }
}

/// Carries out `store` of an operand of the width (LLVM Language Reference, "store Instruction").
pub(crate) fn store(
    registers: &[Option<Value>],
    memory: &mut Blocks,
    n: u64,
    w: Width,
    operand: &Operand,
    to: &Operand,
) -> Done
    requires { IsAccessWidth w.bits }
    ensures does { Does result memory.new 0 0 (with_operand
        (operand_value (register registers.now) n (Int w.bits) operand.now) (λ x. with_operand
        (operand_value (register registers.now) n Ptr to.now) (stored_at memory.old w.bits x))) }
    ensures kept { KeepsUnlessGone result memory.old memory.new }
{
    let Some(x) = integer_value(registers, n, w, operand) else {
        return Done::Stuck;
    };
    match pointer_value(registers, to) {
        Some(Value::Pointer { block, offset }) => {
            match memory.store(block, offset, w, value_stored(x)) {
                Ok(()) => Done::Goes(None),
                Err(_) => Done::Ends(Phase::Undefined),
            }
        }
        Some(_) => Done::Ends(Phase::Undefined),
        None => Done::Stuck,
    }
}

/// A value that was loaded.
fn value_loaded(loaded: Loaded) -> Value
    ensures { result ≡ loaded_value loaded }
{
    match loaded {
        Loaded::Number(n) => Value::Number(n),
        Loaded::Poison => Value::Poison,
    }
}

/// What is stored of a value.
fn value_stored(x: Value) -> Loaded
    ensures { result ≡ stored_value x }
{
    match x {
        Value::Number(n) => Loaded::Number(n),
        Value::Pointer { .. } | Value::Null | Value::Poison => Loaded::Poison,
    }
}

/// How many bytes a type takes in memory: an integer its width over 8, rounded up to 1, 2, 4 or 8. None comes exactly
/// where they are 2^64 or more.
pub fn bytes_in_memory(kind: &IrType) -> Option<u64>
    ensures { SomeIff result (bytes_of_type kind.now < 2 ^ 64) (bytes_of_type kind.now) }
{
    match kind {
        IrType::Int(w) => Some(int_size(*w)),
        IrType::Array(dims, w) => bytes_of_array(dims.as_slice(), *w),
        IrType::Void | IrType::Ptr => Some(0),
    }
}

/// How many bytes an array takes. None comes exactly where they are 2^64 or more.
fn bytes_of_array(dims: &[u64], width: u32) -> Option<u64>
    ensures { SomeIff result (size_of_array dims.now width < 2 ^ 64) (size_of_array dims.now width) }
{
    if dims.contains(&0) {
        return Some(0);
    }
    let mut size = int_size(width);
    for dim in dims {
        size = size.checked_mul(*dim)?;
    }
    Some(size)
}

/// How many bytes an array takes, modulo 2^64.
pub(crate) fn array_size(dims: &[u64], width: u32) -> u64
    ensures { result ≡ size_of_array dims.now width % 2 ^ 64 }
{
    let mut size = int_size(width);
    for dim in dims {
        size = size.wrapping_mul(*dim);
    }
    size
}

/// How many bytes an integer of so many bits takes in memory: its width over 8, rounded up to 1, 2, 4 or 8.
pub fn int_size(width: u32) -> u64
    ensures { result ≡ bytes_of_int width }
{
    match width {
        0..=8 => 1,
        9..=16 => 2,
        17..=32 => 4,
        _ => 8,
    }
}
