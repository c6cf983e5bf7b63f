//! What is read of sources.

use scev_outside::{MemorySource, ReadError, StdSource, SteadySource, read_all};
use std::alloc::{AllocError, Global};
use std::test::Fail;

/// What is read of a source of these bytes that never fails, with the limit.
fn read(alloc: Global, bytes: &[u8], limit: usize) -> Result<Vec<u8>, ReadError> {
    let mut source = SteadySource::new(Vec::from_slice(alloc, bytes)?);
    read_all(alloc, &mut source, limit)
}

/// A source of these bytes, four at a time, whose second read fails.
fn faulty(alloc: Global, bytes: &[u8]) -> Result<MemorySource, AllocError> {
    let bytes = Vec::from_slice(alloc, bytes)?;
    Ok(MemorySource::new(bytes, 4, vec![in alloc; 1]?))
}

#[test]
fn limit_is_the_most_that_is_read(rt: HostRuntime) -> Result<(), Fail> {
    let alloc = rt.alloc();
    assert_eq!(rt; read(alloc, b"abc", 3)?.as_slice(), b"abc".as_slice());
    assert_eq!(rt; read(alloc, b"abc", 2), Err(ReadError::TooLong));
    Ok(())
}

/// A fault takes no byte: what was left then is there to read.
#[test]
fn second_read_fails(rt: HostRuntime) -> Result<(), Fail> {
    let alloc = rt.alloc();
    let mut source = faulty(alloc, b"abcdef")?;
    assert_eq!(rt; read_all(alloc, &mut source, 9), Err(ReadError::Failed));
    assert_eq!(rt; source.faults(), 1);
    assert_eq!(rt; source.left(), b"ef".as_slice());
    let rest = read_all(alloc, &mut source, 9)?;
    assert_eq!(rt; rest.as_slice(), b"ef".as_slice());
    assert_eq!(rt; source.left(), b"".as_slice());
    Ok(())
}

#[test]
fn standard_input_begins_without_faults(rt: HostRuntime) {
    assert_eq!(rt; StdSource::new(rt.stdin()).faults(), 0);
}
