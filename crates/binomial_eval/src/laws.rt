//! Laws of recurrences at a turn: facts about any parts and turn, proved once.

ghost use Rattle.std.specs.Prelude.{◌≡◌, ℕ, ◌+◌, ◌%◌, ◌^◌, ◌<◌, List, ◌∷◌};
ghost use Rattle.scev_base.specs.Iterated.{iterated};
ghost use Rattle.binomial_eval.specs.Sums.{modular_add, binomial_sum};

/// A recurrence of whole numbers at a turn is the sum of its parts, each times the turn's binomial
/// coefficient at the part's place (Bachmann, Wang, Zima 1994).
pub fn iterated_is_binomial_sum()
    ensures { (t first : ℕ) (rest : List ℕ)
        → iterated ◌+◌ t first rest ≡ binomial_sum t (first ∷ rest) }
{}

/// A recurrence modulo 2^w is at each turn the residue of that of the whole numbers, where its first part
/// is a residue. Whatever the parts are, both have one residue.
pub fn iterated_is_residue()
    ensures exact { (w t first : ℕ) (rest : List ℕ)
        → first < 2 ^ w
        → iterated (modular_add w) t first rest ≡ iterated ◌+◌ t first rest % 2 ^ w }
    ensures same { (w t first : ℕ) (rest : List ℕ)
        → iterated (modular_add w) t first rest % 2 ^ w ≡ iterated ◌+◌ t first rest % 2 ^ w }
{}
