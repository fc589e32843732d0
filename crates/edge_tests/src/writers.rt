//! Any writer of std is a sink.
use cue_io::{OutputSink, SinkFault, write_all};
use std::alloc::Global;
use std::io::{self, Write};
use std::test::Fail;

/// A writer that takes at most two bytes at a time and records its calls: the bytes that it took, and a `.` for a flush.
#[derive(Drop)]
struct Recorder {
    calls: Vec<u8>,
    flush_fails: bool,
}

impl Recorder {
    fn make(alloc: Global, flush_fails: bool) -> Recorder {
        Recorder {
            calls: Vec::new(alloc),
            flush_fails,
        }
    }
}

impl Write for Recorder {
    fn write(&mut self, buf: &[u8]) -> io::Result<usize> {
        let count = buf.len().min(2);
        self.calls.extend_from_slice(&buf[..count])?;
        Ok(count)
    }

    fn flush(&mut self) -> io::Result<()> {
        self.calls.push(b'.')?;
        if self.flush_fails {
            return Err(io::Error::from(io::ErrorKind::Other));
        }
        Ok(())
    }
}

#[test]
fn a_piece_is_written_whole_and_flushed_last(rt: HostRuntime) -> Result<(), Fail> {
    let mut writer = Recorder::make(rt.alloc(), false);
    let mut sink = OutputSink::make(&mut writer);
    assert_eq!(rt; write_all(&mut sink, b"hello"), Ok(()));
    assert_eq!(rt; sink.faults(), 0);
    assert_eq!(rt; writer.calls.as_slice(), b"he.ll.o.".as_slice());
    Ok(())
}

#[test]
fn nothing_is_written_after_a_flush_that_failed(rt: HostRuntime) -> Result<(), Fail> {
    let mut writer = Recorder::make(rt.alloc(), true);
    let mut sink = OutputSink::make(&mut writer);
    assert_eq!(rt; write_all(&mut sink, b"hello"), Err(SinkFault::Failed));
    assert_eq!(rt; write_all(&mut sink, b"world"), Err(SinkFault::Failed));
    assert_eq!(rt; sink.faults(), 2);
    assert_eq!(rt; writer.calls.as_slice(), b"he.".as_slice());
    Ok(())
}

#[test]
fn a_writer_in_memory_holds_what_was_written(rt: HostRuntime) -> Result<(), Fail> {
    let mut out = Vec::new(rt.alloc());
    let mut sink = OutputSink::telling(&mut out);
    assert_eq!(rt; write_all(&mut sink, b"hello"), Ok(()));
    assert_eq!(rt; sink.faults(), 0);
    assert_eq!(rt; out.as_slice(), b"hello".as_slice());
    Ok(())
}
