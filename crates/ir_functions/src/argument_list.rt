//! All arguments of a call.

ghost use Rattle.std.specs.Prelude.{◌≡◌, [], ◌∷◌, ◌++◌, ◌<◌, ◌≤◌, length, IfOk, OnOk};
ghost use Rattle.ir_parts.specs.Reading.{left_from, ReadsAs};
ghost use Rattle.ir_parts.specs.Places.{mentions_at};
ghost use Rattle.ir_functions.specs.Arguments.{given_at, some_given_at, next_argument_at};
ghost use Rattle.ir_functions.specs.ArgumentViews.{bare_argument, argument_sites, bare_arguments, arguments_sites};

use crate::arguments::{Argument, read_argument};
use ir_lex::Tokens;
use ir_model::{Text, TypedOperand};
use ir_parts::{ItemFault, behind_sign, starts_sign};
use sqlite_items::Items;
use std::alloc::{AllocError, Global};

/// The arguments of a call: the operands with their types, and the passed-on words before each.
#[derive(Drop)]
pub(crate) struct Arguments {
    pub typed: Items<TypedOperand>,
    pub words: Items<Text>,
}

impl Arguments {
    fn new(alloc: Global) -> Arguments
        ensures { result ≡ record { typed = []; words = [] } }
    {
        Arguments {
            typed: Items::new(alloc),
            words: Items::new(alloc),
        }
    }

    fn push(&mut self, arg: Argument) -> Result<(), AllocError>
        ensures { OnOk result (self.new
            ≡ record { typed = self.old.typed ++ arg.typed ∷ []; words = self.old.words ++ arg.words ∷ [] }) }
    {
        self.typed.push(arg.typed)?;
        self.words.push(arg.words)
    }
}

/// The arguments with commas between them, and the place behind the `)`.
#[tactic(auto, unfolding(crate::specs::Arguments::given_at), using(ir_body::proofs::Told::told))]
pub(crate) fn read_arguments(
    alloc: Global,
    tokens: &Tokens<'_>,
    from: usize,
) -> Result<(Arguments, usize), ItemFault>
    requires { from ≤ length tokens.now.tokens }
    ensures value { ReadsAs (λ args. (bare_arguments args, mentions_at tokens.now (arguments_sites args))) tokens.now
        result (given_at (left_from tokens.now from)) }
    ensures forth { IfOk result (λ read. (from < read.1) × (read.1 ≤ length tokens.now.tokens)) }
{
    if starts_sign(tokens, from, b')') {
        let at = behind_sign(tokens, from, b')')?;
        return Ok((Arguments::new(alloc), at));
    }
    let (args, at) = some_arguments(alloc, tokens, from)?;
    let at = behind_sign(tokens, at, b')')?;
    Ok((args, at))
}

/// One argument or more.
fn some_arguments(
    alloc: Global,
    tokens: &Tokens<'_>,
    from: usize,
) -> Result<(Arguments, usize), ItemFault>
    requires { from ≤ length tokens.now.tokens }
    ensures value { ReadsAs (λ args. (bare_arguments args, mentions_at tokens.now (arguments_sites args))) tokens.now
        result (some_given_at (left_from tokens.now from)) }
    ensures forth { IfOk result (λ read. (from < read.1) × (read.1 ≤ length tokens.now.tokens)) }
{
    let mut args = Arguments::new(alloc);
    let (first, behind) = read_argument(alloc, tokens, from)?;
    args.push(first)?;
    let mut at = behind;
    'arguments: while starts_sign(tokens, at, b',') {
        let (next, behind) = next_argument(alloc, tokens, at)?;
        args.push(next)?;
        at = behind;
    }
    Ok((args, at))
}

/// A comma and an argument.
#[tactic(auto, unfolding(crate::specs::Arguments::next_argument_at))]
fn next_argument(
    alloc: Global,
    tokens: &Tokens<'_>,
    from: usize,
) -> Result<(Argument, usize), ItemFault>
    requires { from ≤ length tokens.now.tokens }
    ensures value { ReadsAs (λ arg. (bare_argument arg, mentions_at tokens.now (argument_sites arg))) tokens.now
        result (next_argument_at (left_from tokens.now from)) }
    ensures forth { IfOk result (λ read. (from < read.1) × (read.1 ≤ length tokens.now.tokens)) }
{
    let at = behind_sign(tokens, from, b',')?;
    read_argument(alloc, tokens, at)
}
