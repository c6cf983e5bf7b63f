//! The labels of blocks.

ghost use Rattle.std.specs.Prelude.{◌≡◌, ◌+◌, ◌^◌, ◌<◌, ◌≤◌, [], ◌∷◌, length, IsTrue, Ok};
ghost use Rattle.std.specs.Option.{is_some};
ghost use Rattle.ir_text.specs.Said.{said_label};
ghost use Rattle.ir_model.specs.Sites.{DefinesBlock};
ghost use Rattle.ir_parts.specs.Reading.{left_from, first_given};
ghost use Rattle.ir_parts.specs.Places.{mentions_at};
ghost use Rattle.ir_functions.specs.Functions.{block_name_at};

use ir_lex::Tokens;
use ir_parts::{is_label, next};
use scev_base::BlockId;

/// The id of a block, which is the place where it begins, and the place behind its label, if one stands there.
pub(crate) fn block_name(tokens: &Tokens<'_>, from: usize) -> (BlockId, usize)
    requires { from ≤ length tokens.now.tokens }
    ensures value { block_name_at (left_from tokens.now from)
        ≡ Ok (
          (record { 0 = 0 }, mentions_at tokens.now (DefinesBlock result.0.0 ∷ [])),
          left_from tokens.now result.1,
        ) }
    ensures forth { (from ≤ result.1) × (result.1 ≤ length tokens.now.tokens) }
{
    if starts_label(tokens, from) {
        (BlockId(from as u64), from + 1)
    } else {
        (BlockId(from as u64), from)
    }
}

/// Whether the token at a place is `name:`.
fn starts_label(tokens: &Tokens<'_>, from: usize) -> bool
    ensures value { result ≡ is_some (first_given said_label (left_from tokens.now from)) }
    ensures within { IsTrue result → (from < length tokens.now.tokens) × (from + 1 < 2 ^ 64) }
{
    match next(tokens, from) {
        Some((kind, text)) => is_label(kind, text),
        None => false,
    }
}
