//! A call of the tool over objects in memory.

use scev_outside::{MemorySink, MemorySource};
use scev_tool::{Status, run};
use scev_words::Word;
use std::alloc::{AllocError, Global};

/// Room for all that a row writes, in bytes.
pub const ROOM: usize = 2_000_000;

/// What a call answered and wrote.
#[derive(Drop)]
pub struct Outcome {
    pub status: Status,
    pub out: Vec<u8>,
    pub err: Vec<u8>,
}

/// The words of a call.
pub fn words(alloc: Global, texts: &[&str]) -> Result<Vec<Word>, AllocError> {
    let mut words = Vec::new(alloc);
    for text in texts {
        words.push(Word::new(String::from_str(alloc, text)?))?;
    }
    Ok(words)
}

/// A call over these objects, with the words.
pub fn call(
    alloc: Global,
    texts: &[&str],
    mut source: MemorySource,
    mut out: MemorySink,
    mut err: MemorySink,
) -> Result<Outcome, AllocError> {
    let words = words(alloc, texts)?;
    let status = run(alloc, &words, &mut source, &mut out, &mut err);
    Ok(Outcome {
        status,
        out: Vec::from_slice(alloc, out.taken())?,
        err: Vec::from_slice(alloc, err.taken())?,
    })
}

/// A source that gives the bytes at once, and never fails.
pub fn source(alloc: Global, bytes: &[u8]) -> Result<MemorySource, AllocError> {
    let bytes = Vec::from_slice(alloc, bytes)?;
    Ok(MemorySource::new(bytes, 1 << 20, Vec::new(alloc)))
}

/// A sink that takes all, and never fails.
pub fn sink(alloc: Global) -> Result<MemorySink, AllocError> {
    MemorySink::new(alloc, ROOM, 1 << 20, Vec::new(alloc))
}

/// `print` over these bytes, with objects that never fail.
pub fn print(alloc: Global, input: &[u8]) -> Result<Outcome, AllocError> {
    plain_call(alloc, &["print"], input)
}

/// Whether `print` over the input writes this text, and nothing else.
pub fn printed(alloc: Global, input: &str, text: &str) -> Result<bool, AllocError> {
    writes(alloc, input, &["print"], text)
}

/// Whether `print` over the input refuses it with this line, and writes nothing else.
pub fn refused(alloc: Global, input: &str, line: &str) -> Result<bool, AllocError> {
    refuses(alloc, input, &["print"], line)
}

/// Whether the words over the input write this text, and nothing else.
pub fn writes(alloc: Global, input: &str, words: &[&str], text: &str) -> Result<bool, AllocError> {
    let outcome = plain_call(alloc, words, input.as_bytes())?;
    Ok(
        outcome.status == Status::Done
            && outcome.out.as_slice() == text.as_bytes()
            && outcome.err.is_empty(),
    )
}

/// Whether the words over the input are refused with this line, and nothing else is written.
pub fn refuses(alloc: Global, input: &str, words: &[&str], line: &str) -> Result<bool, AllocError> {
    let outcome = plain_call(alloc, words, input.as_bytes())?;
    let mut wanted = Vec::from_slice(alloc, line.as_bytes())?;
    wanted.push(b'\n')?;
    Ok(
        outcome.status.code() == 3
            && outcome.out.is_empty()
            && outcome.err.as_slice() == wanted.as_slice(),
    )
}

/// `report` over these bytes, with objects that never fail.
pub fn report(alloc: Global, input: &[u8]) -> Result<Outcome, AllocError> {
    plain_call(alloc, &["report"], input)
}

/// A call with the words over these bytes, with objects that never fail.
fn plain_call(alloc: Global, words: &[&str], input: &[u8]) -> Result<Outcome, AllocError> {
    call(
        alloc,
        words,
        source(alloc, input)?,
        sink(alloc)?,
        sink(alloc)?,
    )
}
