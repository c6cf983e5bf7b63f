//! The forms in which a name is written: digits, or a string.

ghost use Rattle.std.specs.Prelude.{◌≡◌, ◌-◌, ◌<◌, IsTrue, length, take, drop};
ghost use Rattle.std.specs.List.{list_all};
ghost use Rattle.ir_text.specs.Bytes.{is_no_quote, is_digit};
ghost use Rattle.ir_text.specs.Names.{is_number, is_signed_number};
ghost use Rattle.ir_text.specs.Said.{is_string_text, inner_text};

use crate::numbers::are_digits;

/// Whether a text is a number as names have it: from 1 to 39 decimal digits.
#[tactic(auto, unfolding(ir_text::specs::Names::is_number))]
pub fn is_number(text: &[u8]) -> bool
    ensures value { result ≡ is_number text.now }
    ensures digits { IsTrue result → IsTrue (list_all is_digit text.now) }
{
    0 < text.len() && text.len() <= 39 && are_digits(text)
}

/// Whether a text is such a number, maybe behind a `-`.
#[tactic(auto, unfolding(ir_text::specs::Names::is_signed_number))]
pub fn is_signed_number(text: &[u8]) -> bool
    ensures { result ≡ is_signed_number text.now }
{
    match text {
        [] => false,
        [first, rest @ ..] => is_number(text) || *first == b'-' && is_number(rest),
    }
}

/// Whether a text is a string: quotes around bytes of which none is a quote.
#[tactic(auto, unfolding(ir_text::specs::Said::is_string_text))]
pub fn is_string_text(text: &[u8]) -> bool
    ensures { result ≡ is_string_text text.now }
{
    text.len() >= 2
        && text.starts_with(b"\"".as_slice())
        && text.ends_with(b"\"".as_slice())
        && has_no_quote(inner_text(text))
}

/// The text without its first byte and its last; of fewer than two bytes, nothing.
pub fn inner_text(text: &[u8]) -> &[u8]
    ensures { result.now ≡ inner_text text.now }
{
    if text.len() < 2 {
        return b"";
    }
    &text[1..text.len() - 1]
}

#[tactic(auto, unfolding(ir_text::specs::Bytes::is_no_quote))]
fn has_no_quote(bytes: &[u8]) -> bool
    ensures { result ≡ list_all is_no_quote bytes.now }
{
    bytes.iter().all(|byte| *byte != b'"')
}
