//! Where a call may begin that goes on up to a place.

ghost use Rattle.std.specs.Prelude.{◌≡◌, ◌+◌, ◌^◌, ◌<◌, ◌≤◌, List, ◌∷◌, ◌++◌, Some, IfSome, length, take, codes};
ghost use Rattle.ir_text.specs.Tokens.{Lexeme};
ghost use Rattle.ir_text.specs.declared.token.TokenKind.TheVariants.{Word};
ghost use Rattle.ir_text.specs.Listed.{word};
ghost use Rattle.ir_lex.specs.Tokenized.{lexemes};
ghost use Rattle.ir_left_out.specs.Begun.{out_of, deeper, deeper_by_sign, depth_before};

use ir_lex::{TokenKind, Tokens};
use ir_parts::next;

/// The place of the last `call` before another place that stands in none of the brackets between them; some other
/// place where there is none.
pub(crate) fn last_call(tokens: &Tokens<'_>, end: usize) -> usize
    requires { end ≤ length tokens.now.tokens }
    ensures within { result ≤ end }
    ensures only { (front rest : List Lexeme) → take end (lexemes tokens.now) ≡ front ++ word (codes "call") ∷ rest
        → depth_before rest ≡ Some 0 → result ≡ length front }
{
    let mut at = end;
    let mut depth = 0;
    'back: while at > 0 {
        at -= 1;
        let Some((kind, text)) = next(tokens, at) else {
            return at;
        };
        let Some(deeper) = deeper(kind, text, depth) else {
            return at;
        };
        depth = deeper;
    }
    0
}

/// How deep a place stands in brackets before a token, where the place behind it stands so deep.
#[tactic(auto, unfolding(crate::specs::Begun::deeper))]
fn deeper(kind: TokenKind, text: &[u8], depth: usize) -> Option<usize>
    requires { depth + 1 < 2 ^ 64 }
    ensures value { result ≡ deeper kind text.now depth }
    ensures most { IfSome result (λ before. before ≤ depth + 1) }
{
    match kind {
        TokenKind::Word => outside_call(text, depth),
        TokenKind::Sign(byte) => deeper_by_sign(byte, depth),
        _ => Some(depth),
    }
}

#[tactic(auto, unfolding(crate::specs::Begun::deeper))]
fn outside_call(text: &[u8], depth: usize) -> Option<usize>
    ensures value { result ≡ deeper Word text.now depth }
    ensures most { IfSome result (λ before. before ≤ depth + 1) }
{
    if depth == 0 && text == b"call".as_slice() {
        None
    } else {
        Some(depth)
    }
}

#[tactic(auto, unfolding(crate::specs::Begun::deeper_by_sign))]
fn deeper_by_sign(byte: u8, depth: usize) -> Option<usize>
    requires { depth + 1 < 2 ^ 64 }
    ensures value { result ≡ deeper_by_sign byte depth }
    ensures most { IfSome result (λ before. before ≤ depth + 1) }
{
    match byte {
        b')' | b']' | b'}' => Some(depth + 1),
        b'(' | b'[' | b'{' => out_of(depth),
        _ => Some(depth),
    }
}

fn out_of(depth: usize) -> Option<usize>
    ensures value { result ≡ out_of depth }
    ensures most { IfSome result (λ before. before ≤ depth + 1) }
{
    if depth == 0 { None } else { Some(depth - 1) }
}
