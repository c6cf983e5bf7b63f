//! Blocks and functions.

ghost use Rattle.std.specs.Prelude.{◌≡◌, ◌<◌, ◌≤◌, [], ◌∷◌, length, IfOk};
ghost use Rattle.ir_model.specs.Sites.{function_sites, block_sites};
ghost use Rattle.ir_text.specs.Sites.{bare_function, bare_block};
ghost use Rattle.ir_grammar.specs.Functions.{SpellsFunction};
ghost use Rattle.ir_parts.specs.Reading.{left_from, ReadsAs};
ghost use Rattle.ir_parts.specs.Places.{mentions_at};
ghost use Rattle.ir_functions.specs.Functions.{block_at, body_at, function_at};
ghost use Rattle.ir_body.specs.Sentences.{TellsAs};
ghost use Rattle.ir_functions.specs.Views.{bare_blocks, blocks_sites};

use crate::labels::block_name;
use crate::lines::read_instrs;
use crate::param_list::read_params;
use crate::signature::{opening, signature};
use ir_lex::Tokens;
use ir_model::{Block, Function, Text};
use ir_parts::{ItemFault, behind_sign, starts_sign};
use sqlite_items::Items;
use std::alloc::{AllocError, Global};

/// A function with a body, and the place behind its `}`. Each id in it is the position of a token: of the name, or,
/// where what is defined has none, of the first token of what is defined. Its tables are empty.
///
/// Seen without ids and with the names that are mentioned, it is what the tokens spell. A fault stands at the first
/// token with which no function goes on.
pub fn read_function(
    alloc: Global,
    tokens: &Tokens<'_>,
    from: usize,
) -> Result<(Function, usize), ItemFault>
    requires { from ≤ length tokens.now.tokens }
    ensures sentence { TellsAs (λ f. (bare_function f, mentions_at tokens.now (function_sites f)))
        SpellsFunction tokens.now from result }
    ensures value { ReadsAs (λ f. (bare_function f, mentions_at tokens.now (function_sites f))) tokens.now result
        (function_at (left_from tokens.now from)) }
    ensures forth { IfOk result (λ read. (from < read.1) × (read.1 ≤ length tokens.now.tokens)) }
{
    function(alloc, tokens, from)
}

#[tactic(auto, unfolding(crate::specs::Functions::function_at), using(ir_body::proofs::Told::told))]
fn function(alloc: Global, tokens: &Tokens<'_>, from: usize) -> Result<(Function, usize), ItemFault>
    requires { from ≤ length tokens.now.tokens }
    ensures value { ReadsAs (λ f. (bare_function f, mentions_at tokens.now (function_sites f))) tokens.now result
        (function_at (left_from tokens.now from)) }
    ensures forth { IfOk result (λ read. (from < read.1) × (read.1 ≤ length tokens.now.tokens)) }
{
    let (((_, before), (ret, name)), at) = signature(alloc, tokens, from)?;
    let at = behind_sign(tokens, at, b'(')?;
    let (params, at) = read_params(alloc, tokens, at)?;
    let ((_, after), at) = opening(alloc, tokens, at)?;
    let (blocks, at) = body(alloc, tokens, at)?;
    let words = two_texts(alloc, before, after)?;
    let function = Function {
        name,
        words,
        ret,
        params,
        blocks,
        values: Items::new(alloc),
        labels: Items::new(alloc),
    };
    Ok((function, at))
}

fn two_texts(alloc: Global, first: Text, second: Text) -> Result<Items<Text>, AllocError>
    ensures { IfOk result (λ texts. texts ≡ first ∷ second ∷ []) }
{
    let mut texts = Items::new(alloc);
    texts.push(first)?;
    texts.push(second)?;
    Ok(texts)
}

/// One block or more, and the place behind the `}`.
fn body(alloc: Global, tokens: &Tokens<'_>, from: usize) -> Result<(Items<Block>, usize), ItemFault>
    requires { from ≤ length tokens.now.tokens }
    ensures value { ReadsAs (λ blocks. (bare_blocks blocks, mentions_at tokens.now (blocks_sites blocks))) tokens.now
        result (body_at (left_from tokens.now from)) }
    ensures forth { IfOk result (λ read. (from < read.1) × (read.1 ≤ length tokens.now.tokens)) }
{
    let mut blocks = Items::new(alloc);
    let (first, behind) = block(alloc, tokens, from)?;
    blocks.push(first)?;
    let mut at = behind;
    'others: while !starts_sign(tokens, at, b'}') {
        let (next, behind) = block(alloc, tokens, at)?;
        blocks.push(next)?;
        at = behind;
    }
    let at = behind_sign(tokens, at, b'}')?;
    Ok((blocks, at))
}

/// A label or none, and instructions.
#[tactic(auto, unfolding(crate::specs::Functions::block_at), using(ir_body::proofs::Told::told))]
fn block(alloc: Global, tokens: &Tokens<'_>, from: usize) -> Result<(Block, usize), ItemFault>
    requires { from ≤ length tokens.now.tokens }
    ensures value { ReadsAs (λ block. (bare_block block, mentions_at tokens.now (block_sites block))) tokens.now result
        (block_at (left_from tokens.now from)) }
    ensures forth { IfOk result (λ read. (from < read.1) × (read.1 ≤ length tokens.now.tokens)) }
{
    let (id, at) = block_name(tokens, from);
    let (instrs, at) = read_instrs(alloc, tokens, at)?;
    Ok((Block { id, instrs }, at))
}
