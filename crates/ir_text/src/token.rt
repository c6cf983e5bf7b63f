//! Tokens.

/// What kind of token a text is.
#[derive(Clone, Copy, Debug, PartialEq, Eq)]
pub enum TokenKind {
    /// A letter, `$`, `.` or `_`, and then letters, digits, `$`, `.`, `_` and `-`.
    Word,
    /// A word, digits or a string, with `:` directly behind it.
    Label,
    /// Decimal digits, maybe behind a `-`.
    Numeral,
    /// `%` and a word, digits or a string.
    Local,
    /// `@` and a word, digits or a string.
    Global,
    /// `!`, alone or with a word or a numeral.
    Metadata,
    /// `#` and a numeral (an attribute group) or a word (a debug record).
    Group,
    /// A string, or a byte string `c".."`.
    Quoted,
    /// One of `( ) [ ] { } < > , = * : |`: its byte.
    Sign(u8),
    /// `...`.
    Dots,
}

/// A token of an input: its kind, and the bytes `from` to `to`, without the last.
#[derive(Clone, Copy, Debug, PartialEq, Eq)]
pub struct Token {
    pub kind: TokenKind,
    pub from: usize,
    pub to: usize,
}
