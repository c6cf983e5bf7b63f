//! Kinds of bytes.

ghost use Rattle.std.specs.Prelude.{◌≡◌};
ghost use Rattle.ir_text.specs.Bytes.{is_blank, is_letter, is_digit, is_sign, begins_word, goes_on_word};

/// Whether the byte is a space, a tab, a carriage return or a line feed.
#[tactic(auto, unfolding(crate::specs::Bytes::is_blank))]
pub fn is_blank(byte: u8) -> bool
    ensures { result ≡ is_blank byte }
{
    byte == b' ' || byte == b'\t' || byte == b'\r' || byte == b'\n'
}

#[tactic(auto, unfolding(crate::specs::Bytes::is_letter))]
fn is_letter(byte: u8) -> bool
    ensures { result ≡ is_letter byte }
{
    byte.is_ascii_alphabetic()
}

/// Whether the byte is a decimal digit.
#[tactic(auto, unfolding(crate::specs::Bytes::is_digit))]
pub fn is_digit(byte: u8) -> bool
    ensures { result ≡ is_digit byte }
{
    byte.is_ascii_digit()
}

/// Whether the byte is a letter, `$`, `.` or `_`, which begin a word.
#[tactic(auto, unfolding(crate::specs::Bytes::begins_word))]
pub fn begins_word(byte: u8) -> bool
    ensures { result ≡ begins_word byte }
{
    is_letter(byte) || byte == b'$' || byte == b'.' || byte == b'_'
}

/// Whether the byte may stand in a word behind its first byte.
#[tactic(auto, unfolding(crate::specs::Bytes::goes_on_word))]
pub fn goes_on_word(byte: u8) -> bool
    ensures { result ≡ goes_on_word byte }
{
    begins_word(byte) || is_digit(byte) || byte == b'-'
}

/// Whether the byte is one of `( ) [ ] { } < > , = * : |`.
#[tactic(auto, unfolding(crate::specs::Bytes::is_sign))]
pub fn is_sign(byte: u8) -> bool
    ensures { result ≡ is_sign byte }
{
    b"()[]{}<>,=*:|".contains(&byte)
}
