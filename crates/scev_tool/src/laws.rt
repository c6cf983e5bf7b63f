//! Laws of the tool: facts about any module, proved once.

ghost use Rattle.std.specs.Prelude.{◌≡◌, ℕ, List};
ghost use Rattle.ir_model.specs.declared.item.Module.{Module};
ghost use Rattle.scev_tool.specs.Report.{IsReport};

/// A module has one report.
pub fn one_report()
    ensures { (m : Module) (s t : List ℕ) → IsReport m s → IsReport m t → s ≡ t }
{}
