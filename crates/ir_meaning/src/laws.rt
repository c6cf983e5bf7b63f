//! Laws of runs: facts about any function and any state, proved once.

ghost use Rattle.std.specs.Prelude.{◌≡◌, ◌≢◌, ◌++◌, List, [], false};
ghost use Rattle.ir_model.specs.declared.types.IrType.TheVariants.{Int};
ghost use Rattle.ir_model.specs.declared.op.Operand.{Operand};
ghost use Rattle.ir_model.specs.declared.op.Op.TheVariants.{Branch};
ghost use Rattle.ir_model.specs.declared.function.Instr.{Instr};
ghost use Rattle.ir_model.specs.declared.function.Function.{Function};
ghost use Rattle.scev_base.specs.declared.ids.BlockId.{BlockId};
ghost use Rattle.ir_meaning.specs.declared.value.Value.TheVariants as value;
ghost use Rattle.ir_meaning.specs.Phases as phase;
ghost use Rattle.ir_meaning.specs.declared.choice.Choice.{Choice};
ghost use Rattle.ir_meaning.specs.State.{State, is_running, ended};
ghost use Rattle.ir_meaning.specs.Operands.{chosen, operand_value};
ghost use Rattle.ir_meaning.specs.Step.{instr_at, step};
ghost use Rattle.ir_meaning.specs.Run.{after};
ghost use Rattle.ir_meaning.specs.Refinement.{JumpsBack, HasCommonBlocks, Refines};

/// A run that has ended stays as it is, whatever is chosen.
pub fn ended_stays()
    ensures one_step { (f : Function) (choice : Choice) (s : State)
        → is_running s.phase ≡ false → step f choice s ≡ s }
    ensures all_steps { (f : Function) (s : State) (choices : List Choice)
        → is_running s.phase ≡ false → after f s choices ≡ s }
{}

/// A run of a front of the choices, and then of the rest, is a run of all.
pub fn runs_are_joined()
    ensures { (f : Function) (s : State) (front rest : List Choice)
        → after f s (front ++ rest) ≡ after f (after f s front) rest }
{}

/// The behaviour of a branch on poison is undefined (LLVM Language Reference, "br Instruction").
pub fn poison_branch_is_undefined()
    ensures { (f : Function) (choice : Choice) (s : State) (instr : Instr) (cond : Operand)
        (there else_there : BlockId)
        → s.phase ≡ phase.Running
        → instr_at f s ≡ Some instr
        → instr.op ≡ Branch cond there else_there
        → operand_value s.registers (chosen choice) (Int 1) cond ≡ Some value.Poison
        → step f choice s ≡ ended phase.Undefined s }
{}

/// A function with a block may stand for itself.
pub fn refinement_is_reflexive()
    ensures { (f : Function) → f.blocks ≢ [] → Refines f f }
{}

/// Where a function may stand for a second one and that for a third one, the first may stand for the third: as long as
/// the second has each block that both others have, and what the first adds to the third jumps back to it.
pub fn refinement_composes()
    ensures { (f g h : Function) → f.blocks ≢ [] → HasCommonBlocks f g h → JumpsBack f h
        → Refines f g → Refines g h → Refines f h }
{}
