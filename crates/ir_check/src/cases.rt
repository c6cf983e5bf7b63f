//! Cases of a switch, modulo 2^w.

ghost use Rattle.std.specs.Prelude.{◌≡◌, ◌==◌, min, [], map, IfOk};
ghost use Rattle.scev_base.specs.Residue.{residue};
ghost use Rattle.ir_rules.specs.Types as types;
ghost use Rattle.ir_rules.specs.Spots.{repeated};
ghost use Rattle.ir_rules.specs.Values as values;

use crate::kinds::width_of;
use indexmap::IndexSet;
use ir_model::{Case, IrType, Op};
use std::alloc::{AllocError, Global};

/// Whether no case of a switch stands twice in it, modulo 2^w.
pub(crate) fn cases_differ(alloc: Global, op: &Op) -> Result<bool, AllocError>
    ensures { IfOk result (λ differ. differ ≡ values.cases_differ op.now) }
{
    match op {
        Op::Switch { kind, cases, .. } => differ(alloc, kind, cases.as_slice()),
        _ => Ok(true),
    }
}

/// Whether no two cases are one at a type.
fn differ(alloc: Global, kind: &IrType, cases: &[Case]) -> Result<bool, AllocError>
    ensures { IfOk result (λ differ. differ ≡ values.is_empty (repeated (λ m n. m == n) []
        (map (λ one. residue (types.width_of kind.now) one.number) cases.now))) }
{
    let mut seen: IndexSet<u128> = IndexSet::new(alloc);
    for case in cases {
        let (_, is_new) = seen.insert_full(low_bits(kind, case.number))?;
        if !is_new {
            return Ok(false);
        }
    }
    Ok(true)
}

/// A number's lowest bits at a type: its residue modulo 2^w, where w is the width of the type, at most 128.
pub(crate) fn low_bits(kind: &IrType, number: i128) -> u128
    ensures { result ≡ residue (min (types.width_of kind.now) 128) number }
{
    let width = width_of(kind);
    let bits = number.cast_unsigned();
    if width >= 128 {
        return bits;
    }
    bits % (1 << width)
}

/// Whether two numbers are one at a type: modulo 2^w, where w is its width.
pub(crate) fn same_number(kind: &IrType, left: i128, right: i128) -> bool
    ensures { result ≡ (residue (types.width_of kind.now) left == residue (types.width_of kind.now) right) }
{
    low_bits(kind, left) == low_bits(kind, right)
}
