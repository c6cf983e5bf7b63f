//! What sinks take.

use scev_outside::{Failed, MemorySink, Sink, StdErr, StdSink, SteadySink, write_all};
use std::test::Fail;

/// A sink with little room takes what it has room for, three bytes at a time.
#[test]
fn room_for_five_of_seven(rt: HostRuntime) -> Result<(), Fail> {
    let mut sink = MemorySink::new(rt.alloc(), 5, 3, Vec::new(rt.alloc()))?;
    assert_eq!(rt; write_all(&mut sink, b"abcdefg"), Err(Failed));
    assert_eq!(rt; sink.faults(), 1);
    assert_eq!(rt; sink.taken(), b"abcde".as_slice());
    Ok(())
}

#[test]
fn without_faults(rt: HostRuntime) {
    let mut out = StdSink::new(rt.stdout());
    let mut err = StdErr::new(rt.stderr());
    assert_eq!(rt; write_all(&mut out, b"to the output\n"), Ok(()));
    assert_eq!(rt; write_all(&mut err, b"to the errors\n"), Ok(()));
    assert_eq!(rt; write_all(&mut SteadySink::new(), b"abcdefg"), Ok(()));
    // To take nothing of an empty piece is no fault.
    assert_eq!(rt; out.write(b""), Ok(0));
    assert_eq!(rt; out.faults(), 0);
    assert_eq!(rt; err.faults(), 0);
}
