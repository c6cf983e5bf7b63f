//! What the text of a module guarantees, and what the printed one does. Each function is a law, which does nothing.

ghost use Rattle.std.specs.Prelude.{ℕ, ◌^◌, ◌<◌, ◌≤◌, List, length, All};
ghost use Rattle.ir_model.specs.declared.item.Module.{Module};
ghost use Rattle.ir_model.specs.WellMade.{AreWellMade};
ghost use Rattle.ir_grammar.specs.Printing.{module_text};
ghost use Rattle.ir_grammar.specs.Spelled.{Spells};
ghost use Rattle.ir_read_back.specs.Normal.{normal};

/// What is printed for a module that a text of bytes spells spells the same module, with each numeral as it
/// is printed.
pub fn reads_back()
    ensures { (bytes : List ℕ) (m : Module) → All (λ b. b < 2 ^ 8) bytes → length bytes ≤ 2 ^ 64 → Spells bytes m
        → Spells (module_text m) (normal m) }
{}

/// A module that a text spells is well made: the ids of each function stand in its tables, which have the types of
/// its values, and its types and instructions are of their forms.
pub fn spelled_is_well_made()
    ensures { (bytes : List ℕ) (m : Module) → Spells bytes m → AreWellMade m }
{}
