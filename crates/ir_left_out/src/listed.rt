//! Words and signs that are left out.

ghost use Rattle.std.specs.Prelude.{◌≡◌, ◌+◌, ℕ, position, slice_get, MatchOption, Some, None};
ghost use Rattle.std.specs.Str.{bytes_eq};
ghost use Rattle.ir_text.specs.PassedOn.{left_out_words};
ghost use Rattle.ir_grammar.specs.Spelled.{left_out};
ghost use Rattle.ir_left_out.specs.Named.{NumbersToken, NumbersText, first_texts};

use ir_lex::TokenKind;
use ir_parts::{left_out_place, left_out_word, place_among};

/// The first four of the list. The three behind them are no tokens: two are specifications of data layouts, and one
/// begins names. Then come the words.
const FIRST_TEXTS: [&[u8]; 4] = [b"ptr", b"{", b"<", b"..."];

/// The text of this number in the list, None behind the last: a word or a sign, a specification of a data layout, or
/// what begins a name.
pub fn left_out_text(number: u16) -> Option<&'static [u8]>
    ensures { MatchOption result (slice_get left_out number ≡ None)
        (λ text. slice_get left_out number ≡ Some text.now) }
{
    match number {
        0 => Some(b"ptr"),
        1 => Some(b"{"),
        2 => Some(b"<"),
        3 => Some(b"..."),
        4 => Some(b"E"),
        5 => Some(b"p"),
        6 => Some(b"llvm."),
        _ => left_out_word(number as usize - 7),
    }
}

/// The number of a word or a sign of the list.
pub(crate) fn number_of(kind: TokenKind, text: &[u8]) -> Option<u16>
    ensures { NumbersToken (record { kind = kind; text = text.now }) result }
{
    match kind {
        TokenKind::Word | TokenKind::Sign(_) | TokenKind::Dots => number_of_text(text),
        _ => None,
    }
}

/// The number of a text of the list.
fn number_of_text(text: &[u8]) -> Option<u16>
    ensures { NumbersText text.now result }
{
    match first_place(text) {
        Some(place) => Some(place),
        None => word_number(text),
    }
}

/// The number of a text that is among the first four.
fn first_place(text: &[u8]) -> Option<u16>
    ensures { result ≡ position (λ each. bytes_eq each text.now) first_texts }
{
    match place_among(&FIRST_TEXTS, text) {
        Some(place) => Some(place as u16),
        None => None,
    }
}

/// The number of a word of the list.
fn word_number(text: &[u8]) -> Option<u16>
    ensures { MatchOption result (position (λ each. bytes_eq each text.now) left_out_words ≡ None)
        (λ number. (place : ℕ) × (position (λ each. bytes_eq each text.now) left_out_words ≡ Some place)
        × (number ≡ 7 + place)) }
{
    match left_out_place(text) {
        Some(place) => Some(7 + place as u16),
        None => None,
    }
}
