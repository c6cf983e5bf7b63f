//! Faulty words, sources and sinks, and inputs of hostile size.

use crate::call::{Outcome, call, print, sink, source};
use scev_outside::{MemorySink, MemorySource};
use scev_tool::Status;
use std::alloc::{AllocError, Global};
use std::test::Fail;

const SMALL: &[u8] = b"define i32 @f(){a: ret i32 7}";

const SMALL_PRINTED: &[u8] = b"define i32 @f() {\na:\n  ret i32 7\n}\n";

const WRONG_WORDS: [&[&str]; 20] = [
    &[],
    &["Print"],
    &["print", "print"],
    &["print", ""],
    &["--print"],
    &["print", "report"],
    &["reports"],
    &["report", "--steps", "5"],
    // A run wants the word, the name of a function, and each option at most once and with a value.
    &["eval"],
    &["--function", "f"],
    &["eval", "eval", "--function", "f"],
    &["eval", "--function"],
    &["eval", "--function="],
    &["eval", "--function", ""],
    &["eval", "--function", "--args"],
    &["eval", "--function", "f", "--function", "f"],
    &["eval", "--function", "f", "--turns", "5"],
    &["eval", "--function", "f", "--steps", "1000001"],
    &["eval", "--function", "f", "--steps", "x"],
    &["eval", "--function", "f", "g"],
];

fn one(alloc: Global, number: u64) -> Result<Vec<u64>, AllocError> {
    let mut numbers = Vec::new(alloc);
    numbers.push(number)?;
    Ok(numbers)
}

#[test]
fn wrong_words_read_nothing(rt: HostRuntime) -> Result<(), Fail> {
    for words in WRONG_WORDS {
        let alloc = rt.alloc();
        let outcome = call(
            alloc,
            words,
            source(alloc, SMALL)?,
            sink(alloc)?,
            sink(alloc)?,
        )?;
        assert_eq!(rt; outcome.status, Status::Usage);
        assert_eq!(rt; outcome.out.as_slice(), b"".as_slice());
        assert_eq!(rt; outcome.err.as_slice(), b"scev: usage\n".as_slice());
    }
    Ok(())
}

#[test]
fn a_source_fails_at_its_second_read(rt: HostRuntime) -> Result<(), Fail> {
    let alloc = rt.alloc();
    let source = MemorySource::new(Vec::from_slice(alloc, SMALL)?, 20, one(alloc, 1)?);
    let outcome = call(alloc, &["print"], source, sink(alloc)?, sink(alloc)?)?;
    assert_eq!(rt; outcome.status, Status::ReadFault);
    assert_eq!(rt; outcome.out.as_slice(), b"".as_slice());
    assert_eq!(rt; outcome.err.as_slice(), b"scev: read fault\n".as_slice());
    Ok(())
}

#[test]
fn a_sink_fails_at_its_second_write(rt: HostRuntime) -> Result<(), Fail> {
    let alloc = rt.alloc();
    let out = MemorySink::new(alloc, 100, 10, one(alloc, 1)?)?;
    let outcome = call(alloc, &["print"], source(alloc, SMALL)?, out, sink(alloc)?)?;
    assert_eq!(rt; outcome.status, Status::WriteFault);
    assert_eq!(rt; outcome.out.as_slice(), b"define i32".as_slice());
    assert_eq!(rt; outcome.err.as_slice(), b"scev: write fault\n".as_slice());
    Ok(())
}

#[test]
fn bytes_in_small_pieces(rt: HostRuntime) -> Result<(), Fail> {
    let alloc = rt.alloc();
    let source = MemorySource::new(Vec::from_slice(alloc, SMALL)?, 1, Vec::new(alloc));
    let out = MemorySink::new(alloc, 100, 1, Vec::new(alloc))?;
    let outcome = call(alloc, &["print"], source, out, sink(alloc)?)?;
    assert_eq!(rt; outcome.status, Status::Done);
    assert_eq!(rt; outcome.out.as_slice(), SMALL_PRINTED);
    Ok(())
}

#[test]
fn a_full_error_sink_changes_no_status(rt: HostRuntime) -> Result<(), Fail> {
    let alloc = rt.alloc();
    let err = MemorySink::new(alloc, 10, 4, Vec::new(alloc))?;
    let outcome = call(
        alloc,
        &["print"],
        source(alloc, b"nothing")?,
        sink(alloc)?,
        err,
    )?;
    assert_eq!(rt; outcome.status, Status::NotInGrammar { at: 0 });
    assert_eq!(rt; outcome.err.as_slice(), b"scev: not ".as_slice());
    Ok(())
}

#[test]
fn inputs_at_and_above_the_limit(rt: HostRuntime) -> Result<(), Fail> {
    let alloc = rt.alloc();
    let mut blanks = vec![in alloc; b' '; 8_388_608]?;
    let at_limit = print(alloc, &blanks)?;
    assert_eq!(rt; at_limit.status, Status::Done);
    assert_eq!(rt; at_limit.out.as_slice(), b"".as_slice());
    blanks.push(b' ')?;
    let above = print(alloc, &blanks)?;
    assert_eq!(rt; above.status, Status::TooLong);
    assert_eq!(rt;
        above.err.as_slice(),
        b"scev: input longer than 8388608 bytes\n".as_slice()
    );
    Ok(())
}

/// A function whose one block has a name of so many bytes.
fn with_name(alloc: Global, length: usize) -> Result<Outcome, AllocError> {
    let mut text = Vec::from_slice(alloc, b"define i32 @f(){")?;
    text.extend_from_slice(&vec![in alloc; b'n'; length]?)?;
    text.extend_from_slice(b": ret i32 7}")?;
    print(alloc, &text)
}

#[test]
fn hostile_sizes(rt: HostRuntime) -> Result<(), Fail> {
    let alloc = rt.alloc();
    let named = with_name(alloc, 1_000_000)?;
    assert_eq!(rt; named.status, Status::Done);
    // `define i32 @f() {`, the label with its colon, `  ret i32 7`, `}`, and four line feeds.
    assert_eq!(rt; named.out.len(), 17 + 1_000_001 + 11 + 1 + 4);
    let brackets = print(alloc, &vec![in alloc; b'['; 100_000]?)?;
    assert_eq!(rt; brackets.status, Status::NotInGrammar { at: 0 });
    Ok(())
}
