//! Which refusals are of a part of LLVM IR that is left out by name: of a word or a sign of the list, of a
//! specification in a data layout, or of an intrinsic function that is called.
//!
//! A text is refused at one of its tokens. `left_out` looks at this token, and at those before it where it is a string
//! or a global.
#![tactic(auto)]

ghost use Rattle.std.specs.Prelude.{ℕ, IfOk, MatchOption};
ghost use Rattle.ir_left_out.specs.Named.{IsLeftOutAt};

// The token by itself.
mod listed;
mod placed;

// A data layout, behind what stands before it.
mod layouts;

// The callee of a call, behind the call's first tokens.
mod begun;
mod callees;

use crate::callees::is_intrinsic_callee;
use crate::layouts::faulty_layout;
use crate::listed::number_of;
use crate::placed::placed;
use ir_lex::Tokens;
pub use listed::left_out_text;
use std::alloc::{AllocError, Global};

/// Under which number the token at a place, from 0, is left out by name, and the byte of the text at which what is left
/// out begins.
///
/// That is the token's first byte; in a data layout it is the first byte of the specification. `None` comes exactly
/// where nothing is left out by name, so also where no token stands. The error comes only where there is no memory for
/// a name or for open brackets.
///
/// Time linear in the tokens up to the place and the token's length.
pub fn left_out(
    alloc: Global,
    tokens: &Tokens<'_>,
    at: usize,
) -> Result<Option<(u16, usize)>, AllocError>
    ensures { IfOk result (λ found. MatchOption found
        ((number place : ℕ) → IsLeftOutAt tokens.now at number place → ⊥)
        (λ named. IsLeftOutAt tokens.now at named.0 named.1)) }
{
    let Some((kind, text, from)) = placed(tokens, at) else {
        return Ok(None);
    };
    if let Some(number) = number_of(kind, text) {
        return Ok(Some((number, from)));
    }
    if let Some((number, behind)) = faulty_layout(tokens, at, kind, text)? {
        return Ok(Some((number, from + behind)));
    }
    if is_intrinsic_callee(alloc, tokens, at)? {
        return Ok(Some((6, from)));
    }
    Ok(None)
}
