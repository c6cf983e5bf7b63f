//! What a call does.

ghost use Rattle.std.specs.Prelude.{◌≡◌, ◌↔◌, [], ◌∷◌, IsTrue, IfSome, IfNone};
ghost use Rattle.scev_words.specs.Modes.{Mode as AnyMode, AskFor};
ghost use Rattle.scev_words.specs.Found.{seen};

use crate::options::eval_of;
use crate::word::Word;
use eval_request::Request;

/// What the words of a call ask for.
#[derive(Clone, Copy, Debug)]
pub enum Mode<'w> {
    /// The module as it is printed.
    Print,
    /// The report on the loops of each function.
    Report,
    /// A run of a function.
    Eval(Request<'w>),
}

/// The mode that the words ask for. It is None exactly where they ask for none.
pub fn mode_of(words: &[Word]) -> Option<Mode<'_>>
    ensures some { IfSome result (λ mode. AskFor (seen mode) words.now) }
    ensures none { IfNone result ((mode : AnyMode) → AskFor mode words.now → ⊥) }
{
    if are_word(words, b"print") {
        Some(Mode::Print)
    } else if are_word(words, b"report") {
        Some(Mode::Report)
    } else {
        let request = eval_of(words)?;
        Some(Mode::Eval(request))
    }
}

/// Whether the words are this one word.
fn are_word(words: &[Word], text: &[u8]) -> bool
    ensures { IsTrue result ↔ (words.now ≡ text.now ∷ []) }
{
    match words {
        [word] => word.as_bytes() == text,
        _ => false,
    }
}
