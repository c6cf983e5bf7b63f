//! Arguments of calls.

ghost use Rattle.std.specs.Prelude.{◌≡◌, ◌-◌, ◌<◌, ◌≤◌, length, take, IfOk, IfErr, IfSome};
ghost use Rattle.std.specs.Option.{option_map};
ghost use Rattle.ir_parts.specs.declared.fault.ItemFault.TheVariants.{OutOfMemory};
ghost use Rattle.ir_model.specs.Sites.{operand_sites};
ghost use Rattle.ir_text.specs.Sites.{bare_operand};
ghost use Rattle.ir_parts.specs.Reading.{left_from, begins, ReadsAs};
ghost use Rattle.ir_parts.specs.Places.{mentions_at};
ghost use Rattle.ir_functions.specs.Arguments.{is_outer, may_be_operand, inner_operand, outer_at, inner_at, argument_behind_at, behind_type_at, argument_at};
ghost use Rattle.ir_functions.specs.ArgumentViews.{bare_argument, argument_sites};

use ir_body::read_operand;
use ir_lex::{TokenKind, Tokens};
use ir_model::{IrType, Operand, Text, TypedOperand};
use ir_parts::{
    Ending, ItemFault, Run, is_global, is_local, next, read_scalar_type, run, text_between,
};
use std::alloc::Global;

/// An argument with the passed-on words between its type and its operand. Where the operand is the last piece of
/// what reads as a run of words, as in `ptr noundef null`, `inner` says how that run ends, and so what could still
/// go on with it.
#[derive(Drop)]
pub(crate) struct Argument {
    pub typed: TypedOperand,
    pub words: Text,
    pub inner: Option<Ending>,
}

/// A type, passed-on words and an operand.
#[tactic(auto, unfolding(crate::specs::Arguments::argument_at))]
pub(crate) fn read_argument(
    alloc: Global,
    tokens: &Tokens<'_>,
    from: usize,
) -> Result<(Argument, usize), ItemFault>
    requires { from ≤ length tokens.now.tokens }
    ensures value { ReadsAs (λ arg. (bare_argument arg, mentions_at tokens.now (argument_sites arg))) tokens.now
        result (argument_at (left_from tokens.now from)) }
    ensures forth { IfOk result (λ read. (from < read.1) × (read.1 ≤ length tokens.now.tokens)) }
{
    let (kind, at) = read_scalar_type(tokens, from)?;
    behind_type(alloc, tokens, at, kind)
}

/// What stands behind the type of an argument.
fn behind_type(
    alloc: Global,
    tokens: &Tokens<'_>,
    from: usize,
    kind: IrType,
) -> Result<(Argument, usize), ItemFault>
    requires { from ≤ length tokens.now.tokens }
    ensures value { ReadsAs (λ arg. (bare_argument arg, mentions_at tokens.now (argument_sites arg))) tokens.now
        result (behind_type_at kind (left_from tokens.now from)) }
    ensures forth { IfOk result (λ read. (from ≤ read.1) × (read.1 ≤ length tokens.now.tokens)) }
{
    let (said, end) = run(alloc, tokens, from)?;
    behind_run(alloc, tokens, from, end, kind, said)
}

/// The operand behind a run, or at its end.
#[tactic(auto, unfolding(crate::specs::Arguments::argument_behind_at))]
fn behind_run(
    alloc: Global,
    tokens: &Tokens<'_>,
    from: usize,
    end: usize,
    kind: IrType,
    said: Run,
) -> Result<(Argument, usize), ItemFault>
    requires { (from ≤ end) × (end ≤ length tokens.now.tokens) }
    ensures value { ReadsAs (λ arg. (bare_argument arg, mentions_at tokens.now (argument_sites arg))) tokens.now
        result (argument_behind_at kind (said, take (end - from) (left_from tokens.now from))
        (left_from tokens.now end)) }
    ensures forth { IfOk result (λ read. (from ≤ read.1) × (read.1 ≤ length tokens.now.tokens)) }
{
    if starts_outer(tokens, end) {
        outer(alloc, tokens, from, end, kind)
    } else {
        inner(alloc, tokens, from, end, kind, said.ending)
    }
}

/// Whether a register, a global or a numeral stands at a place.
fn starts_outer(tokens: &Tokens<'_>, from: usize) -> bool
    ensures { result ≡ begins is_outer (left_from tokens.now from) }
{
    match next(tokens, from) {
        Some((kind, text)) => is_outer(kind, text),
        None => false,
    }
}

/// Whether a token is a register, a global or a numeral.
#[tactic(auto, unfolding(ir_body::specs::Operands::operand_of_parts))]
fn is_outer(kind: TokenKind, text: &[u8]) -> bool
    ensures { result ≡ is_outer (record { kind = kind; text = text.now }) }
{
    match kind {
        TokenKind::Local => is_local(kind, text),
        TokenKind::Global => is_global(kind, text),
        TokenKind::Numeral => true,
        _ => false,
    }
}

/// The operand stands behind the run.
#[tactic(auto, unfolding(crate::specs::Arguments::outer_at), using(ir_body::proofs::Told::told))]
fn outer(
    alloc: Global,
    tokens: &Tokens<'_>,
    from: usize,
    end: usize,
    kind: IrType,
) -> Result<(Argument, usize), ItemFault>
    requires { (from ≤ end) × (end ≤ length tokens.now.tokens) }
    ensures value { ReadsAs (λ arg. (bare_argument arg, mentions_at tokens.now (argument_sites arg))) tokens.now
        result (outer_at kind (take (end - from) (left_from tokens.now from)) (left_from tokens.now end)) }
    ensures forth { IfOk result (λ read. (from ≤ read.1) × (read.1 ≤ length tokens.now.tokens)) }
{
    let (value, behind) = read_operand(tokens, end)?;
    let words = text_between(alloc, tokens, from, end)?;
    let typed = TypedOperand { kind, value };
    let inner = None;
    Ok((
        Argument {
            typed,
            words,
            inner,
        },
        behind,
    ))
}

/// The operand is the last token of the run.
#[tactic(auto, unfolding(crate::specs::Arguments::inner_at), using(crate::proofs::ArgumentAt::words_before))]
fn inner(
    alloc: Global,
    tokens: &Tokens<'_>,
    from: usize,
    end: usize,
    kind: IrType,
    ending: Ending,
) -> Result<(Argument, usize), ItemFault>
    requires { (from ≤ end) × (end ≤ length tokens.now.tokens) }
    ensures value { ReadsAs (λ arg. (bare_argument arg, mentions_at tokens.now (argument_sites arg))) tokens.now
        result (inner_at kind ending (take (end - from) (left_from tokens.now from)) (left_from tokens.now end)) }
    ensures forth { IfOk result (λ read. (from ≤ read.1) × (read.1 ≤ length tokens.now.tokens)) }
{
    match last_operand(tokens, from, end, ending)? {
        Some(value) => {
            let words = text_between(alloc, tokens, from, end - 1)?;
            let typed = TypedOperand { kind, value };
            let inner = Some(ending);
            Ok((
                Argument {
                    typed,
                    words,
                    inner,
                },
                end,
            ))
        }
        None => Err(ItemFault::CannotGoOn { at_token: end }),
    }
}

/// The operand that the last token of a run is, where it may be one.
fn last_operand(
    tokens: &Tokens<'_>,
    from: usize,
    end: usize,
    ending: Ending,
) -> Result<Option<Operand>, ItemFault>
    requires { (from ≤ end) × (end ≤ length tokens.now.tokens) }
    ensures value { IfOk result (λ found. inner_operand ending (take (end - from) (left_from tokens.now from))
        ≡ option_map (λ value. (bare_operand value, mentions_at tokens.now (operand_sites value))) found) }
    ensures within { IfOk result (λ found. IfSome found (λ _. from < end)) }
    ensures large { IfErr result (λ fault. fault ≡ OutOfMemory) }
{
    if from == end || !may_be_operand(ending) {
        return Ok(None);
    }
    match read_operand(tokens, end - 1) {
        Ok((value, _)) => Ok(Some(value)),
        Err(ItemFault::CannotGoOn { .. }) => Ok(None),
        Err(ItemFault::OutOfMemory) => Err(ItemFault::OutOfMemory),
    }
}

/// Whether the last token of a run that ends so may be an operand.
fn may_be_operand(ending: Ending) -> bool
    ensures { result ≡ may_be_operand ending }
{
    ending == Ending::Word || ending == Ending::Placed
}
