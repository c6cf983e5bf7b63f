//! Laws of turns: facts about any run of any function that is accepted, proved once.

ghost use Rattle.std.specs.Prelude.{◌≡◌, ◌<◌, ℕ, Some, Contains, slice_get};
ghost use Rattle.scev_base.specs.declared.ids.BlockId.{BlockId};
ghost use Rattle.ir_model.specs.declared.function.Function.{Function};
ghost use Rattle.ir_model.specs.declared.signature.Signatures.{Signatures};
ghost use Rattle.ir_rules.specs.Accepted.{IsAccepted};
ghost use Rattle.ir_rules.specs.Uses.{Use, uses};
ghost use Rattle.ir_meaning.specs.Run.{Run, last};
ghost use Rattle.ssa_check.specs.declared.definitions.Definition.TheVariants.{At};
ghost use Rattle.ssa_check.specs.Tables.{definition_of};
ghost use Rattle.loop_regions.specs.Loops.{Loop, IsLoop};
ghost use Rattle.loop_turns.specs.Since.{NoTurnSince};

/// Wherever a run stands in the block of a use, the value's definition was entered, and since then no loop that has
/// the definition has begun a turn. So between a definition and its use no loop that holds both begins a new turn;
/// and where an operand leaves a loop, its last definition falls in the last turn of that loop's last entry. A
/// definition in the block of the use stands before it. The use of a phi's operand is at the end of the block that the
/// entry is from.
pub fn no_turn_before_a_use()
    ensures held { (signatures : Signatures) (f : Function) (l : Loop) (k : ℕ) (use_ : Use) (d : BlockId) (i : ℕ)
        (r : Run f) → IsAccepted signatures f → IsLoop f l
        → slice_get (uses f) k ≡ Some use_ → definition_of f use_.value ≡ At d i
        → Contains l.blocks d.0 → Contains l.blocks use_.block
        → (last f r).block ≡ use_.block
        → NoTurnSince l d.0 (last f r).trail × (d.0 ≡ use_.block → i < use_.index) }
    ensures left { (signatures : Signatures) (f : Function) (l : Loop) (k : ℕ) (use_ : Use) (d : BlockId) (i : ℕ)
        (r : Run f) → IsAccepted signatures f → IsLoop f l
        → slice_get (uses f) k ≡ Some use_ → definition_of f use_.value ≡ At d i
        → Contains l.blocks d.0 → (Contains l.blocks use_.block → ⊥)
        → (last f r).block ≡ use_.block
        → NoTurnSince l d.0 (last f r).trail × (d.0 ≡ use_.block → i < use_.index) }
{}
