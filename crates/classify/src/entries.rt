//! The entries of a phi, from its own block and from others.

ghost use Rattle.std.specs.Prelude.{◌≡◌, ◌≢◌, ℕ, [], ◌∷◌, All, IfSome, IfNone, List};
ghost use Rattle.ir_model.specs.declared.types.IrType.TheVariants.{Int};
ghost use Rattle.ir_model.specs.declared.op.Operand.TheVariants as operand;
ghost use Rattle.ir_model.specs.declared.op.Op.TheVariants.{Phi};
ghost use Rattle.ir_model.specs.declared.op.PhiEntry.{PhiEntry};
ghost use Rattle.classify.specs.Recurrence.{IsNumeral, entries_from, other_entries};

use crate::increment::numeral;
use ir_model::{IrType, Op, Operand, PhiEntry};
use scev_base::{BlockId, ValueId};

/// The entries of a phi of type `i32`. It is None for every other operation.
pub(crate) fn phi_entries(op: &Op) -> Option<&[PhiEntry]>
    ensures some { IfSome result (λ entries. op.now ≡ Phi (Int 32) entries.now) }
    ensures none { IfNone result ((entries : List PhiEntry) → op.now ≡ Phi (Int 32) entries → ⊥) }
{
    match op {
        Op::Phi {
            kind: IrType::Int(32),
            entries,
        } => Some(entries.as_slice()),
        _ => None,
    }
}

/// The register that a phi takes on the edge from its own block, where it has one entry for that edge, a
/// register. It is None where it has none, more than one, or another operand.
pub(crate) fn back_register(entries: &[PhiEntry], header: BlockId) -> Option<ValueId>
    ensures some { IfSome result (λ next.
        entries_from header.0 entries.now ≡ record { value = operand.Reg next; from = header } ∷ []) }
    ensures none { IfNone result ((next : ℕ)
        → entries_from header.0 entries.now ≡ record { value = operand.Reg (record { 0 = next }); from = header } ∷ []
        → ⊥) }
{
    match only_from(entries, header) {
        Some(Operand::Reg(next)) => Some(next),
        _ => None,
    }
}

/// The value of the entry from a block, where there is exactly one.
fn only_from(entries: &[PhiEntry], from: BlockId) -> Option<Operand>
    ensures some { IfSome result (λ value. entries_from from.0 entries.now ≡ record { value = value; from = from } ∷ []) }
    ensures none { IfNone result ((value : Operand)
        → entries_from from.0 entries.now ≡ record { value = value; from = from } ∷ [] → ⊥) }
{
    let mut found = None;
    for entry in entries {
        if entry.from == from {
            if found.is_some() {
                return None;
            }
            found = Some(entry.value);
        }
    }
    found
}

/// The residue modulo 2^32 of the numeral at which a phi starts on every edge from outside. It is None where
/// there is no such edge, and where the entries from outside aren't all numerals with one residue.
pub(crate) fn start_of(entries: &[PhiEntry], header: BlockId) -> Option<u64>
    ensures outside { IfSome result (λ first. other_entries header.0 entries.now ≢ []) }
    ensures starts { IfSome result (λ first. All (λ entry. IsNumeral first entry.value) (other_entries header.0 entries.now)) }
    ensures none { IfNone result ((first : ℕ) → other_entries header.0 entries.now ≢ []
        → All (λ entry. IsNumeral first entry.value) (other_entries header.0 entries.now) → ⊥) }
{
    let mut first = None;
    for entry in entries {
        if entry.from != header {
            let start = numeral(entry.value)?;
            match first {
                Some(earlier) if earlier != start => return None,
                _ => first = Some(start),
            }
        }
    }
    first
}
