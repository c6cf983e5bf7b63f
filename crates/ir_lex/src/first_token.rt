//! The token at the start of a text.

ghost use Rattle.std.specs.Prelude.{◌≡◌, ◌+◌, ◌^◌, ◌≤◌, ◌<◌, length, IfSome};
ghost use Rattle.ir_lex.specs.FirstToken.{quoted_len, behind_one, numeral_or_sign, plain, local, first_token};

use crate::lengths::{and_before, name_len, signed_len, string_len, tag_len, word_len};
use crate::number::{fits_signed, fits_unsigned};
use ir_text::{TokenKind, is_sign};

/// The token with which a text begins: its kind and its length. None comes exactly where no token begins.
#[tactic(auto, unfolding(crate::specs::FirstToken::first_token))]
pub(crate) fn first_token(bytes: &[u8]) -> Option<(TokenKind, usize)>
    ensures value { result ≡ first_token bytes.now }
    ensures within { IfSome result (λ token. (0 < token.1) × (token.1 ≤ length bytes.now)) }
{
    let (first, rest) = bytes.split_first()?;
    match *first {
        b'%' => local(rest),
        b'@' => behind_sigil(TokenKind::Global, name_len(rest)),
        b'!' => Some((TokenKind::Metadata, tag_len(rest) + 1)),
        b'#' => behind_sigil(TokenKind::Group, tag_len(rest)),
        _ => plain(bytes),
    }
}

/// The local of which this stands behind the `%`.
#[tactic(auto, unfolding(crate::specs::FirstToken::local))]
fn local(rest: &[u8]) -> Option<(TokenKind, usize)>
    ensures value { result ≡ local rest.now }
    ensures within { IfSome result (λ token. (0 < token.1) × (token.1 ≤ length rest.now + 1)) }
{
    let len = name_len(rest);
    if fits_unsigned(&rest[..len]) {
        behind_sigil(TokenKind::Local, len)
    } else {
        None
    }
}

/// A token of a sigil and what has this length, unless there is nothing of it.
fn behind_sigil(kind: TokenKind, len: usize) -> Option<(TokenKind, usize)>
    requires { len < 2 ^ 63 }
    ensures { result ≡ behind_one kind len }
{
    if len == 0 {
        None
    } else {
        Some((kind, len + 1))
    }
}

/// The token at the start, where it begins with no sigil.
#[tactic(auto, unfolding(crate::specs::FirstToken::plain, crate::specs::FirstToken::begins_label, crate::specs::FirstToken::begins_dots))]
fn plain(bytes: &[u8]) -> Option<(TokenKind, usize)>
    ensures value { result ≡ plain bytes.now }
    ensures within { IfSome result (λ token. (0 < token.1) × (token.1 ≤ length bytes.now)) }
{
    let name = name_len(bytes);
    if name > 0 && bytes.get(name) == Some(&b':') {
        return if fits_unsigned(&bytes[..name]) {
            Some((TokenKind::Label, name + 1))
        } else {
            None
        };
    }
    let quoted = quoted_len(bytes);
    if quoted > 0 {
        return Some((TokenKind::Quoted, quoted));
    }
    let word = word_len(bytes);
    if word == 2 && bytes.starts_with(b"...") {
        return Some((TokenKind::Dots, 3));
    }
    if word > 0 {
        Some((TokenKind::Word, word))
    } else {
        numeral_or_sign(bytes)
    }
}

/// The length of the string at the start, or of `c` and a string directly behind it, 0 if there is none.
#[tactic(auto, unfolding(crate::specs::FirstToken::quoted_len))]
fn quoted_len(bytes: &[u8]) -> usize
    ensures value { result ≡ quoted_len bytes.now }
    ensures within { result ≤ length bytes.now }
{
    match bytes.split_first() {
        Some((b'c', rest)) => and_before(string_len(rest)),
        _ => string_len(bytes),
    }
}

/// The numeral or the sign at the start.
#[tactic(auto, unfolding(crate::specs::FirstToken::numeral_or_sign))]
fn numeral_or_sign(bytes: &[u8]) -> Option<(TokenKind, usize)>
    ensures value { result ≡ numeral_or_sign bytes.now }
    ensures within { IfSome result (λ token. (0 < token.1) × (token.1 ≤ length bytes.now)) }
{
    let (first, _) = bytes.split_first()?;
    let len = signed_len(bytes);
    if len > 0 {
        return if fits_signed(&bytes[..len]) {
            Some((TokenKind::Numeral, len))
        } else {
            None
        };
    }
    if is_sign(*first) {
        Some((TokenKind::Sign(*first), 1))
    } else {
        None
    }
}
