//! The mode `eval` and its options.

ghost use Rattle.std.specs.Prelude.{◌≡◌, IfSome, IfNone, option_map, position};
ghost use Rattle.eval_request.specs.Asked.{Asked, asked_by};
ghost use Rattle.scev_words.specs.Modes.{AskForEval};
ghost use Rattle.scev_words.specs.Said.{is_equals, is_value, with_value, name_of, with_option, with_word};
ghost use Rattle.scev_words.specs.Said.{said_also, asked_of};
ghost use Rattle.scev_words.specs.SaidBy.{name_by, said_by};

use crate::word::Word;
use eval_request::{Request, numeral};

/// The most steps of a run, where no option says how many.
const STEPS_MOST: u64 = 1_000_000;

/// An option of the mode.
#[derive(Clone, Copy, Debug, PartialEq, Eq)]
pub(crate) enum Name {
    Function,
    Args,
    Steps,
}

/// What the words so far have said.
#[derive(Clone, Copy, Debug)]
pub(crate) struct Said<'w> {
    mode: bool,
    function: Option<&'w [u8]>,
    args: Option<&'w [u8]>,
    steps: Option<&'w [u8]>,
    /// The option whose value is the next word.
    awaited: Option<Name>,
}

/// What the words ask of a run: the word `eval` and the options `--function`, `--args` and `--steps`, in any order and
/// each at most once, as `--name value` or `--name=value`. None comes exactly where they don't ask for one.
pub(crate) fn eval_of(words: &[Word]) -> Option<Request<'_>>
    ensures some { IfSome result (λ request. AskForEval (asked_by request) words.now) }
    ensures none { IfNone result ((asked : Asked) → AskForEval asked words.now → ⊥) }
{
    let mut said = Said {
        mode: false,
        function: None,
        args: None,
        steps: None,
        awaited: None,
    };
    for word in words {
        said = said_also(said, word.as_bytes())?;
    }
    request_of(said)
}

/// What the words have said, with one word more. None comes where it can't stand there.
#[tactic(auto, unfolding(crate::specs::Said::said_also))]
fn said_also<'w>(said: Said<'w>, word: &'w [u8]) -> Option<Said<'w>>
    ensures { option_map said_by result ≡ said_also (said_by said.entry) word.now }
{
    match said.awaited {
        Some(name) => with_value(
            Said {
                awaited: None,
                ..said
            },
            name,
            word,
        ),
        None => with_word(said, word),
    }
}

/// With a word that is no value of the option before it.
#[tactic(auto, unfolding(crate::specs::Said::with_word))]
fn with_word<'w>(said: Said<'w>, word: &'w [u8]) -> Option<Said<'w>>
    ensures { option_map said_by result ≡ with_word (said_by said.entry) word.now }
{
    if word == b"eval".as_slice() {
        return if said.mode {
            None
        } else {
            Some(Said { mode: true, ..said })
        };
    }
    match word {
        [b'-', b'-', rest @ ..] => with_option(said, rest),
        _ => None,
    }
}

/// With an option, whose text behind `--` is given.
#[tactic(auto, unfolding(crate::specs::Said::with_option))]
fn with_option<'w>(said: Said<'w>, text: &'w [u8]) -> Option<Said<'w>>
    ensures { option_map said_by result ≡ with_option (said_by said.entry) text.now }
{
    match equals_at(text) {
        Some(at) => with_value(said, name_of(&text[..at])?, &text[at + 1..]),
        None => Some(Said {
            awaited: Some(name_of(text)?),
            ..said
        }),
    }
}

/// Where the first `=` stands.
fn equals_at(text: &[u8]) -> Option<usize>
    ensures { result ≡ position is_equals text.now }
{
    text.iter().position(|byte| *byte == b'=')
}

/// The option of this name.
#[tactic(auto, unfolding(crate::specs::Said::name_of))]
fn name_of(text: &[u8]) -> Option<Name>
    ensures { option_map name_by result ≡ name_of text.now }
{
    if text == b"function".as_slice() {
        Some(Name::Function)
    } else if text == b"args".as_slice() {
        Some(Name::Args)
    } else if text == b"steps".as_slice() {
        Some(Name::Steps)
    } else {
        None
    }
}

/// With the value of an option that has none so far.
#[tactic(auto, unfolding(crate::specs::Said::with_value))]
fn with_value<'w>(said: Said<'w>, name: Name, value: &'w [u8]) -> Option<Said<'w>>
    ensures { option_map said_by result ≡ with_value (said_by said.entry) (name_by name) value.now }
{
    if !is_value(value) {
        return None;
    }
    match name {
        Name::Function if said.function.is_none() => Some(Said {
            function: Some(value),
            ..said
        }),
        Name::Args if said.args.is_none() => Some(Said {
            args: Some(value),
            ..said
        }),
        Name::Steps if said.steps.is_none() => Some(Said {
            steps: Some(value),
            ..said
        }),
        _ => None,
    }
}

/// Whether a word or its end may be a value: it has a byte, and doesn't begin with `-`.
fn is_value(text: &[u8]) -> bool
    ensures { result ≡ is_value text.now }
{
    match text {
        [first, ..] => *first != b'-',
        [] => false,
    }
}

/// What is asked for, where all words are said.
#[tactic(auto, unfolding(crate::specs::Said::asked_of))]
fn request_of(said: Said<'_>) -> Option<Request<'_>>
    ensures { option_map asked_by result ≡ asked_of (said_by said.entry) }
{
    if !said.mode || said.awaited.is_some() {
        return None;
    }
    let most = match said.steps {
        None => STEPS_MOST,
        Some(text) => numeral(text).filter(|n| *n <= STEPS_MOST)?,
    };
    Some(Request {
        name: said.function?,
        args: said.args,
        most,
    })
}
