//! What the grammar itself guarantees. Each function is a law, which does nothing.

ghost use Rattle.std.specs.Prelude.{◌≡◌, List};
ghost use Rattle.ir_model.specs.declared.item.Module.{Module};
ghost use Rattle.ir_text.specs.Sites.{Draft};
ghost use Rattle.ir_grammar.specs.Numbering.{IsNumberedModule};

/// Items without ids, and the names that are mentioned in them, make one module.
pub fn one_numbering()
    ensures { (drafts : List Draft) (m n : Module) → IsNumberedModule drafts m → IsNumberedModule drafts n → m ≡ n }
{}
