//! Any reader of std is a source.
use cue_io::{InputSource, Line, LineFault, LineReader};
use std::io::{self, Read};
use std::test::Fail;

/// A reader that fails at each second call, from the first one on.
#[derive(Drop)]
struct Broken<'a> {
    bytes: &'a [u8],
    fails: bool,
}

impl Read for Broken<'_> {
    fn read(&mut self, buf: &mut [u8]) -> io::Result<usize> {
        self.fails = !self.fails;
        if self.fails {
            return Err(io::Error::from(io::ErrorKind::Other));
        }
        self.bytes.read(buf)
    }
}

#[test]
fn a_reader_in_memory_gives_its_lines(rt: HostRuntime) -> Result<(), Fail> {
    let mut source = InputSource::telling(b"one\ntwo".as_slice());
    let mut lines = LineReader::make(rt.alloc(), 8)?;
    assert_eq!(rt; lines.next(&mut source), Ok(Line::Bytes(b"one")));
    assert_eq!(rt; lines.next(&mut source), Ok(Line::Bytes(b"two")));
    assert_eq!(rt; lines.next(&mut source), Ok(Line::End));
    assert_eq!(rt; source.faults(), 0);
    Ok(())
}

#[test]
fn a_read_that_fails_is_a_fault_and_loses_nothing(rt: HostRuntime) -> Result<(), Fail> {
    let mut source = InputSource::make(Broken {
        bytes: b"one\n",
        fails: false,
    });
    let mut lines = LineReader::make(rt.alloc(), 8)?;
    assert_eq!(rt; lines.next(&mut source), Err(LineFault::Read));
    assert_eq!(rt; lines.next(&mut source), Ok(Line::Bytes(b"one")));
    assert_eq!(rt; lines.next(&mut source), Err(LineFault::Read));
    assert_eq!(rt; lines.next(&mut source), Ok(Line::End));
    assert_eq!(rt; source.faults(), 2);
    Ok(())
}
