//! `lex` and `tokens` on whole texts.

use ir_lex::TokenKind::{self, Dots, Group, Label, Local, Metadata, Numeral, Quoted, Sign, Word};
use ir_lex::{LexError, Tokens, lex, tokens};
use std::alloc::Global;
use std::process::Abort;
use std::test::Fail;

/// The text of a token, and its kind.
type Wanted = (&'static str, TokenKind);

/// Asserts that these are the tokens of the input.
fn same(rt: &impl Abort, input: &str, found: &Tokens<'_>, wanted: &[Wanted]) -> Result<(), Fail> {
    assert_eq!(rt; found.len(), wanted.len(), "in {input}");
    for (at, (text, kind)) in wanted.iter().enumerate() {
        assert_eq!(rt; found.get(at).ok_or("a token")?.kind, *kind, "of {text}");
        assert_eq!(rt; found.text(at).ok_or("a text")?, text.as_bytes());
    }
    Ok(())
}

/// Asserts that the tokens of the input are these, and that it has no bad byte.
fn whole(rt: &impl Abort, alloc: Global, input: &str, wanted: &[Wanted]) -> Result<(), Fail> {
    let (found, end) = lex(alloc, input.as_bytes())?;
    assert_eq!(rt; end, input.len(), "in {input}");
    same(rt, input, &found, wanted)?;
    same(rt, input, &tokens(alloc, input.as_bytes())?, wanted)
}

/// Asserts that the first bad byte of the input is this one, and that these tokens stand before it.
fn bad(
    rt: &impl Abort,
    alloc: Global,
    input: &str,
    wanted: &[Wanted],
    place: usize,
) -> Result<(), Fail> {
    let (found, end) = lex(alloc, input.as_bytes())?;
    assert_eq!(rt; end, place, "in {input}");
    same(rt, input, &found, wanted)?;
    match tokens(alloc, input.as_bytes()) {
        Err(LexError::BadByte { at }) => assert_eq!(rt; at, place, "in {input}"),
        _ => panic!(rt; "tokens in {input}"),
    }
    Ok(())
}

#[test]
fn nothing_but_gaps(rt: HostRuntime) -> Result<(), Fail> {
    let alloc = rt.alloc();
    whole(&rt, alloc, "", &[])?;
    whole(&rt, alloc, " \t; a comment\r\n\n; the last", &[])
}

#[test]
fn words_and_names(rt: HostRuntime) -> Result<(), Fail> {
    let alloc = rt.alloc();
    // Three dots are no name, but two of them are a word.
    whole(
        &rt,
        alloc,
        "%... .a",
        &[("%..", Local), (".", Word), (".a", Word)],
    )?;
    whole(&rt, alloc, "... ....", &[("...", Dots), ("....", Word)])?;
    // No blank is needed between tokens.
    whole(
        &rt,
        alloc,
        "@\"a b\"@7,%7",
        &[
            ("@\"a b\"", TokenKind::Global),
            ("@7", TokenKind::Global),
            (",", Sign(b',')),
            ("%7", Local),
        ],
    )?;
    // Words, strings and numbers are labels, and a byte string is none.
    whole(
        &rt,
        alloc,
        "a-1:\"b\":7:c\"d\":",
        &[
            ("a-1:", Label),
            ("\"b\":", Label),
            ("7:", Label),
            ("c\"d\"", Quoted),
            (":", Sign(b':')),
        ],
    )
}

#[test]
fn numerals_and_tags(rt: HostRuntime) -> Result<(), Fail> {
    let alloc = rt.alloc();
    // A numeral ends where a letter stands.
    whole(
        &rt,
        alloc,
        "7a -12",
        &[("7", Numeral), ("a", Word), ("-12", Numeral)],
    )?;
    // Behind a `!` stands a numeral, a word or nothing.
    whole(
        &rt,
        alloc,
        "!12!-3! !x-y",
        &[
            ("!12", Metadata),
            ("!-3", Metadata),
            ("!", Metadata),
            ("!x-y", Metadata),
        ],
    )?;
    whole(&rt, alloc, "#0 #dbg", &[("#0", Group), ("#dbg", Group)])?;
    // The greatest numeral, and the greatest unnamed value.
    whole(
        &rt,
        alloc,
        "170141183460469231731687303715884105727",
        &[("170141183460469231731687303715884105727", Numeral)],
    )?;
    whole(
        &rt,
        alloc,
        "%18446744073709551615",
        &[("%18446744073709551615", Local)],
    )
}

#[test]
fn bad_bytes(rt: HostRuntime) -> Result<(), Fail> {
    let alloc = rt.alloc();
    // A byte that nothing begins with; what stands behind it isn't read.
    bad(&rt, alloc, "a ~", &[("a", Word)], 2)?;
    bad(&rt, alloc, "a,~ b", &[("a", Word), (",", Sign(b','))], 2)?;
    bad(&rt, alloc, "; a comment\n~", &[], 12)?;
    // Numbers that are too great: of a numeral, of a local and of a label.
    bad(
        &rt,
        alloc,
        "170141183460469231731687303715884105728",
        &[],
        0,
    )?;
    bad(&rt, alloc, "a %18446744073709551616", &[("a", Word)], 2)?;
    bad(&rt, alloc, "18446744073709551616:", &[], 0)?;
    // Forty digits are no number. A `!` stands alone too, and no other sigil does.
    bad(
        &rt,
        alloc,
        "!1234567890123456789012345678901234567890",
        &[("!", Metadata)],
        1,
    )?;
    bad(
        &rt,
        alloc,
        "%1234567890123456789012345678901234567890",
        &[],
        0,
    )?;
    bad(
        &rt,
        alloc,
        "#1234567890123456789012345678901234567890",
        &[],
        0,
    )?;
    // Strings that nothing ends.
    bad(&rt, alloc, "c\"open", &[("c", Word)], 1)?;
    bad(&rt, alloc, "@\"open", &[], 0)?;
    // No name behind the sigil.
    bad(&rt, alloc, "% x", &[], 0)
}
