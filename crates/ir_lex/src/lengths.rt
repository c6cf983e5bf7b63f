//! How long a word, a number, a string or a name at the start of a text is, where 0 says that there is none.

ghost use Rattle.std.specs.Prelude.{◌≡◌, ◌<◌, ◌≤◌, length};
ghost use Rattle.std.specs.List.{prefix_len};
ghost use Rattle.ir_text.specs.Bytes.{is_digit, goes_on_word, is_no_quote};
ghost use Rattle.ir_lex.specs.Lengths.{and_before, word_len, number_len, string_len, name_len, signed_len, tag_len};

use ir_text::{begins_word, goes_on_word, is_digit};

/// The most digits of a number.
const MOST_DIGITS: usize = 39;

/// The length of the longest word, number or string at the start. At most one of them is there.
#[tactic(auto, unfolding(crate::specs::Lengths::name_len))]
pub(crate) fn name_len(bytes: &[u8]) -> usize
    ensures value { result ≡ name_len bytes.now }
    ensures within { result ≤ length bytes.now }
{
    word_len(bytes)
        .max(number_len(bytes))
        .max(string_len(bytes))
}

/// The length of the longest word or signed number at the start.
#[tactic(auto, unfolding(crate::specs::Lengths::tag_len))]
pub(crate) fn tag_len(bytes: &[u8]) -> usize
    ensures value { result ≡ tag_len bytes.now }
    ensures within { result ≤ length bytes.now }
{
    word_len(bytes).max(signed_len(bytes))
}

/// The length of the longest word at the start. Three dots alone are no word, but two of them are.
#[tactic(auto, unfolding(crate::specs::Lengths::word_len))]
pub(crate) fn word_len(bytes: &[u8]) -> usize
    ensures value { result ≡ word_len bytes.now }
    ensures within { result ≤ length bytes.now }
{
    let Some((first, _)) = bytes.split_first() else {
        return 0;
    };
    if !begins_word(*first) {
        return 0;
    }
    let len = word_run_len(bytes);
    if &bytes[..len] == b"...".as_slice() {
        2
    } else {
        len
    }
}

/// How many bytes at the start may stand in a word.
fn word_run_len(bytes: &[u8]) -> usize
    ensures { result ≡ prefix_len goes_on_word bytes.now }
{
    bytes.iter().take_while(|byte| goes_on_word(**byte)).count()
}

/// The length of the number at the start, with a `-` before it if there is one.
#[tactic(auto, unfolding(crate::specs::Lengths::signed_len))]
pub(crate) fn signed_len(bytes: &[u8]) -> usize
    ensures value { result ≡ signed_len bytes.now }
    ensures within { result ≤ length bytes.now }
{
    match bytes.split_first() {
        Some((b'-', rest)) => and_before(number_len(rest)),
        _ => number_len(bytes),
    }
}

/// The length of the decimal digits at the start, if they are no more than a number has.
#[tactic(auto, unfolding(crate::specs::Lengths::number_len))]
pub(crate) fn number_len(bytes: &[u8]) -> usize
    ensures value { result ≡ number_len bytes.now }
    ensures within { result ≤ length bytes.now }
{
    let len = digit_run_len(bytes);
    if len <= MOST_DIGITS { len } else { 0 }
}

/// How many digits are at the start.
fn digit_run_len(bytes: &[u8]) -> usize
    ensures { result ≡ prefix_len is_digit bytes.now }
{
    bytes.iter().take_while(|byte| is_digit(**byte)).count()
}

/// The length of the string at the start, with its quotes.
#[tactic(auto, unfolding(crate::specs::Lengths::string_len))]
pub(crate) fn string_len(bytes: &[u8]) -> usize
    ensures value { result ≡ string_len bytes.now }
    ensures within { result ≤ length bytes.now }
{
    match bytes.split_first() {
        Some((b'"', rest)) => {
            let len = unquoted_len(rest);
            if len < rest.len() { len + 2 } else { 0 }
        }
        _ => 0,
    }
}

/// How many bytes stand before the first quote, or how many there are.
#[tactic(auto, unfolding(ir_text::specs::Bytes::is_no_quote))]
fn unquoted_len(bytes: &[u8]) -> usize
    ensures { result ≡ prefix_len is_no_quote bytes.now }
{
    bytes.iter().take_while(|byte| **byte != b'"').count()
}

/// The length with one byte more before it, where there is anything.
pub(crate) fn and_before(len: usize) -> usize
    requires { len < usize.MAX }
    ensures { result ≡ and_before len }
{
    if len == 0 { 0 } else { len + 1 }
}
