//! Laws of loops and of their turns: facts about any function, proved once.

ghost use Rattle.std.specs.Prelude.{◌≡◌, ◌≢◌, ℕ, suc, List, ◌∷◌, All, Contains};
ghost use Rattle.scev_base.specs.declared.ids.BlockId.{BlockId};
ghost use Rattle.ir_model.specs.declared.function.Function.{Function};
ghost use Rattle.ir_model.specs.Walks.{Edge, Reachable};
ghost use Rattle.loop_regions.specs.Loops.{Loop, IsLoop};
ghost use Rattle.loop_regions.specs.OneBlock.{IsOneBlockLoop, AreLoops, one_block};
ghost use Rattle.loop_regions.specs.Turns.{turn};

/// A loop of one block is a loop among all sets of blocks, and no other loop holds its block. The other way
/// round, a block that is a loop as a set is reachable and has an edge to itself. It need not be a loop of
/// one block: where it leads to another block that leads back to it, and control also enters that one from
/// elsewhere, the two of them are no loop, and the one block alone is.
pub fn one_block_is_loop()
    ensures full { (f : Function) (b : ℕ) → IsOneBlockLoop f b → IsLoop f (one_block b) }
    ensures alone { (f : Function) (b : ℕ) (l : Loop)
        → IsOneBlockLoop f b → IsLoop f l → Contains l.blocks b
        → (l.header ≡ b) × All (λ c. c ≡ b) l.blocks }
    ensures back { (f : Function) (b : ℕ)
        → IsLoop f (one_block b) → Reachable f b × Edge f b b }
{}

/// A function has one list of its loops of one block.
pub fn one_table()
    ensures { (f : Function) (x y : List BlockId) → AreLoops f x → AreLoops f y → x ≡ y }
{}

/// The turn of a loop of one block counts the times that the block was entered from itself since it was last
/// entered from another block. To enter another block leaves it as it was.
pub fn turn_of_one_block()
    ensures again { (b : ℕ) (trail : List ℕ)
        → turn (one_block b) (b ∷ b ∷ trail) ≡ suc (turn (one_block b) (b ∷ trail)) }
    ensures anew { (b from : ℕ) (trail : List ℕ)
        → from ≢ b → turn (one_block b) (b ∷ from ∷ trail) ≡ 0 }
    ensures elsewhere { (b other : ℕ) (trail : List ℕ)
        → other ≢ b → turn (one_block b) (other ∷ trail) ≡ turn (one_block b) trail }
{}
