//! What the grammar of modules itself guarantees. Each function is a law, which does nothing.

ghost use Rattle.std.specs.Prelude.{◌≡◌, ℕ, List};
ghost use Rattle.ir_model.specs.declared.item.Module.{Module};
ghost use Rattle.ir_grammar.specs.Spelled.{Spells};

/// A text spells at most one module.
pub fn one_module()
    ensures { (bytes : List ℕ) (m n : Module) → Spells bytes m → Spells bytes n → m ≡ n }
{}
