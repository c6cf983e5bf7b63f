//! Passed-on words and flags.

ghost use Rattle.std.specs.Prelude.{◌≡◌, ◌++◌, OnOk};
ghost use Rattle.ir_grammar.specs.Printing.{align_text, before_space, behind_space, flag_word, words_at};

use ir_model::Text;
use sqlite_items::at;
use std::alloc::AllocError;

/// Appends a text with a space before it, where there is any.
pub fn push_behind_space(out: &mut Vec<u8>, text: &[u8]) -> Result<(), AllocError>
    ensures { OnOk result (out.new.items ≡ out.old.items ++ behind_space text.now) }
{
    if let [_, ..] = text {
        out.push(b' ')?;
        out.extend_from_slice(text)?;
    }
    Ok(())
}

/// Appends a text with a space behind it, where there is any.
pub fn push_before_space(out: &mut Vec<u8>, text: &[u8]) -> Result<(), AllocError>
    ensures { OnOk result (out.new.items ≡ out.old.items ++ before_space text.now) }
{
    if let [_, ..] = text {
        out.extend_from_slice(text)?;
        out.push(b' ')?;
    }
    Ok(())
}

/// Appends `, align n` where words are there.
pub fn push_align(out: &mut Vec<u8>, text: &[u8]) -> Result<(), AllocError>
    ensures { OnOk result (out.new.items ≡ out.old.items ++ align_text text.now) }
{
    if let [_, ..] = text {
        out.extend_from_slice(b", ")?;
        out.extend_from_slice(text)?;
    }
    Ok(())
}

/// Appends a flag's word and a space, where the flag is set.
pub fn push_flag(out: &mut Vec<u8>, set: bool, text: &[u8]) -> Result<(), AllocError>
    ensures { OnOk result (out.new.items ≡ out.old.items ++ flag_word set text.now) }
{
    if set {
        out.extend_from_slice(text)?;
        out.push(b' ')?;
    }
    Ok(())
}

/// The passed-on words at a place of the form, empty where none stand there.
pub fn words_at(words: &[Text], place: usize) -> &[u8]
    ensures { result.now ≡ words_at words.now place }
{
    match at(words, place) {
        Some(text) => text.as_slice(),
        None => &[],
    }
}
