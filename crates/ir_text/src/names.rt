//! Names.

ghost use Rattle.std.specs.Prelude.{◌≡◌};
ghost use Rattle.std.specs.List.{list_all};
ghost use Rattle.std.specs.Str.{bytes_eq};
ghost use Rattle.ir_text.specs.Bytes.{goes_on_word};
ghost use Rattle.ir_text.specs.Names.{dots, is_word};

use crate::bytes::{begins_word, goes_on_word};

/// Whether the text is a word: a letter, `$`, `.` or `_`, and then letters, digits, `$`, `.`, `_` and
/// `-`, but not `...`.
#[tactic(auto, unfolding(crate::specs::Names::is_word))]
pub fn is_word(text: &[u8]) -> bool
    ensures { result ≡ is_word text.now }
{
    match text {
        [] => false,
        [first, rest @ ..] => { begins_word(*first) && all_go_on_word(rest) && !is_dots(text) }
    }
}

fn all_go_on_word(bytes: &[u8]) -> bool
    ensures { result ≡ list_all goes_on_word bytes.now }
{
    bytes.iter().all(|byte| goes_on_word(*byte))
}

fn is_dots(text: &[u8]) -> bool
    ensures { result ≡ bytes_eq text.now dots }
{
    text == b"...".as_slice()
}
