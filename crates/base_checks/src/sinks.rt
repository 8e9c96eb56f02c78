//! Sinks in memory, and those over a writer.

use pc_outside::{MemorySink, PutRefused, Sink, WriterSink};
use std::test::Fail;

fn put_text<S: Sink>(sink: &mut S, text: &str) -> Result<(), PutRefused> {
    sink.put(text.as_bytes())
}

#[test]
fn puts_are_kept_in_their_order(rt: HostRuntime) -> Result<(), Fail> {
    let alloc = rt.alloc();
    let mut sink = MemorySink::new(alloc, Vec::new(alloc));
    put_text(&mut sink, "files")?;
    put_text(&mut sink, "\n")?;
    assert_eq!(rt; sink.bytes(), b"files\n".as_slice());
    assert!(rt; sink.is_whole());
    Ok(())
}

#[test]
fn a_put_that_fails_leaves_a_prefix(rt: HostRuntime) -> Result<(), Fail> {
    let alloc = rt.alloc();
    let mut sink = MemorySink::with_bytes(b"0".to_vec(alloc)?, vec![in alloc; 2]?);
    put_text(&mut sink, "ab")?;
    assert_eq!(rt; put_text(&mut sink, "cdef"), Err(PutRefused::Failed));
    assert_eq!(rt; sink.bytes(), b"0abcd".as_slice());
    put_text(&mut sink, "g")?;
    assert_eq!(rt; sink.bytes(), b"0abcdg".as_slice());
    assert_eq!(rt; sink.faults(), 1);
    assert!(rt; !sink.is_whole());
    Ok(())
}

#[test]
fn standard_output_and_standard_error_are_written(rt: HostRuntime) {
    let mut out = WriterSink::new(rt.stdout());
    assert_eq!(rt; out.put(b"files\n"), Ok(()));
    let mut err = WriterSink::new(rt.stderr());
    assert_eq!(rt; err.put(b"usage\n"), Ok(()));
    assert!(rt; out.is_whole() && err.is_whole());
}

#[test]
fn a_writer_that_is_full_fails(rt: HostRuntime) -> Result<(), Fail> {
    let mut room = [0; 4];
    let mut sink = WriterSink::new(&mut room[..]);
    assert_eq!(rt; sink.put(b"abc"), Ok(()));
    assert_eq!(rt; sink.put(b"def"), Err(PutRefused::Failed));
    assert_eq!(rt; sink.put(b""), Ok(()));
    assert_eq!(rt; sink.faults(), 1);
    assert!(rt; !sink.is_whole());
    assert_eq!(rt; room.as_slice(), b"abcd".as_slice());
    Ok(())
}
