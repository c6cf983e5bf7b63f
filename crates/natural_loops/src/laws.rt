//! Laws of loops: facts about any function, proved once.

ghost use Rattle.std.specs.Prelude.{◌≡◌, ◌⊎◌, ℕ, Contains};
ghost use Rattle.ir_model.specs.declared.function.Function.{Function};
ghost use Rattle.ir_model.specs.Shapes.{entry};
ghost use Rattle.ir_model.specs.Walks.{Edge};
ghost use Rattle.loop_regions.specs.Loops.{Loop, IsLoop};

/// A header has one loop, and two loops with a block in common are one in the other, in any function to whose first
/// block nothing leads.
pub fn loops_are_nested_or_apart()
    ensures one { (f : Function) (l k : Loop) (b : ℕ) → IsLoop f l → IsLoop f k → l.header ≡ k.header
        → Contains l.blocks b → Contains k.blocks b }
    ensures nested { (f : Function) (l k : Loop) (b : ℕ) → ((a : ℕ) → Edge f a (entry f.blocks) → ⊥)
        → IsLoop f l → IsLoop f k → Contains l.blocks b → Contains k.blocks b
        → ((c : ℕ) → Contains l.blocks c → Contains k.blocks c)
        ⊎ ((c : ℕ) → Contains k.blocks c → Contains l.blocks c) }
{}
