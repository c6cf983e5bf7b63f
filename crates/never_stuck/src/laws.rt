//! The law. The function does nothing.

ghost use Rattle.ir_model.specs.declared.function.Function.{Function};
ghost use Rattle.ir_model.specs.declared.signature.Signatures.{Signatures};
ghost use Rattle.ir_model.specs.WellMade.{IsWellMade};
ghost use Rattle.ir_rules.specs.Accepted.{IsAccepted};
ghost use Rattle.never_stuck.specs.NeverStuck.{NeverStuck};

/// No run of a well-made function that breaks no rule is stuck, whatever the arguments that fit, the memory and the
/// choices.
pub fn no_run_is_stuck()
    ensures { (signatures : Signatures) (f : Function) → IsWellMade f → IsAccepted signatures f → NeverStuck f }
{}
