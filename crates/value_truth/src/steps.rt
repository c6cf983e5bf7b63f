//! Laws of single steps. Each is a function that does nothing.

ghost use Rattle.std.specs.Prelude.{◌≡◌, ℕ, true, false, List, Option, Some, slice_get};
ghost use Rattle.scev_base.specs.declared.ids.BlockId.{BlockId};
ghost use Rattle.ir_model.specs.declared.function.Instr.{Instr};
ghost use Rattle.ir_model.specs.declared.function.Block.{Block};
ghost use Rattle.ir_model.specs.declared.function.Function.{Function};
ghost use Rattle.ir_model.specs.declared.signature.Signatures.{Signatures};
ghost use Rattle.ir_model.specs.Shapes.{block_of, leading_phis, is_phi};
ghost use Rattle.ir_model.specs.Walks.{Edge};
ghost use Rattle.ir_model.specs.WellMade.{IsWellMade};
ghost use Rattle.ir_rules.specs.Accepted.{IsAccepted};
ghost use Rattle.ir_memory.specs.Memory.{Memory};
ghost use Rattle.ir_meaning.specs.declared.value.Value.{Value};
ghost use Rattle.ir_meaning.specs.declared.choice.Choice.{Choice};
ghost use Rattle.ir_meaning.specs.Phases as phase;
ghost use Rattle.ir_meaning.specs.State.{Registers, Event};
ghost use Rattle.ir_meaning.specs.Operands.{chosen};
ghost use Rattle.ir_meaning.specs.Effects.{Goes};
ghost use Rattle.ir_meaning.specs.Step.{effect, after_effect, with_phis, behind_phis};
ghost use Rattle.ir_meaning.specs.Run.{Run, last};
ghost use Rattle.ssa_check.specs.declared.definitions.Definition.TheVariants.{At};
ghost use Rattle.ssa_check.specs.Tables.{definition_of};
ghost use Rattle.loop_regions.specs.Loops.{Loop};
ghost use Rattle.scev_tree.specs.Tree.{Tree};
ghost use Rattle.tree_names.specs.Names.{HasOnly};
ghost use Rattle.value_truth.specs.Available.{IsAvailable, MayName, IsInScope};
ghost use Rattle.value_truth.specs.Truth.{Holds, IsTrueAnew};

/// Where a value is available, another value that is defined there may name what an expression of the first one does.
pub fn names_carry_over()
    ensures { (f : Function) (loops : List Loop) (v x b index : ℕ) (tree : Tree)
        → IsInScope f loops x tree → IsAvailable f x b index → HasOnly (MayName f loops v b index) tree }
{}

/// Of a value that an instruction other than a phi gives, an expression is true just after each definition, if it is
/// behind each step that carries the instruction out.
pub fn true_where_given()
    ensures { (signatures : Signatures) (f : Function) (loops : List Loop) (v : ℕ) (tree : Tree) (d : BlockId) (i : ℕ)
        (block : Block) (instr : Instr)
        → IsWellMade f → IsAccepted signatures f → definition_of f v ≡ At d i
        → block_of f d.0 ≡ Some block → slice_get block.instrs i ≡ Some instr → is_phi instr.op ≡ false
        → ((r : Run f) (choice : Choice) (x : Option Value) (memory : Memory) (events : List Event)
        → (last f r).phase ≡ phase.Running → (last f r).block ≡ d.0 → (last f r).place ≡ i
        → effect choice (last f r) instr.op ≡ Goes x memory events
        → Holds loops (after_effect instr.result (last f r) (Goes x memory events)) v tree)
        → IsTrueAnew f loops v tree }
{}

/// Of a value that a phi gives, an expression is true just after each definition, if it is behind each branch into the
/// phi's block; before the branch it may be taken as true, if the value is available there.
pub fn true_where_entered()
    ensures { (signatures : Signatures) (f : Function) (loops : List Loop) (v : ℕ) (tree : Tree) (d : BlockId) (i : ℕ)
        (block : Block) (instr : Instr)
        → IsWellMade f → IsAccepted signatures f → definition_of f v ≡ At d i
        → block_of f d.0 ≡ Some block → slice_get block.instrs i ≡ Some instr → is_phi instr.op ≡ true
        → ((r : Run f) (choice : Choice) (registers : Registers)
        → (last f r).phase ≡ phase.Running → Edge f (last f r).block d.0
        → with_phis (last f r).registers (chosen choice) (last f r).block (leading_phis block.instrs)
        (last f r).registers ≡ Some registers
        → (IsAvailable f v (last f r).block (last f r).place → Holds loops (last f r) v tree)
        → Holds loops (behind_phis d.0 block (last f r) (Some registers)) v tree)
        → IsTrueAnew f loops v tree }
{}
