//! The names of values where they are defined.

ghost use Rattle.std.specs.Prelude.{◌≡◌, ◌<◌, ◌≤◌, length, IfOk};
ghost use Rattle.ir_parts.specs.Reading.{left_from, ReadsAs};
ghost use Rattle.ir_parts.specs.Places.{mentions_at};
ghost use Rattle.ir_functions.specs.Lines.{defined_at};
ghost use Rattle.ir_functions.specs.Views.{bare_value, definition_sites};

use ir_lex::Tokens;
use ir_parts::{ItemFault, starts_local};
use scev_base::ValueId;

/// A value by its name, where it is defined.
#[tactic(auto, unfolding(crate::specs::Lines::defined_at))]
pub(crate) fn definition(tokens: &Tokens<'_>, from: usize) -> Result<(ValueId, usize), ItemFault>
    requires { from ≤ length tokens.now.tokens }
    ensures value { ReadsAs (λ v. (bare_value v, mentions_at tokens.now (definition_sites v))) tokens.now
        result (defined_at (left_from tokens.now from)) }
    ensures forth { IfOk result (λ read. (from < read.1) × (read.1 ≤ length tokens.now.tokens)) }
{
    if starts_local(tokens, from) {
        Ok((ValueId(from as u64), from + 1))
    } else {
        Err(ItemFault::CannotGoOn { at_token: from })
    }
}
