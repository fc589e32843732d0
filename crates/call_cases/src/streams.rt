//! Lines of a source, writes to a sink, and readings of a clock, all in memory.

use case_text::{Calls, LineFault, moves_of, numbers_of, unquoted};
use cue_io::{
    Clock, Line, LineFault as ReadFault, LineReader, MemoryClock, MemorySource, write_all,
};
use std::alloc::{AllocError, Global};

// The longest line of a reader of these rows, in bytes.
const LIMIT: usize = 8;

// How many answers a reader is asked for at most.
const ANSWERS: u32 = 64;

/// Calls for lines of a source, writes to a sink, and readings of a clock.
#[derive(Clone, Copy, Debug, PartialEq, Eq)]
pub enum StreamCall {
    Lines,
    Writes,
    Clocks,
}

impl StreamCall {
    /// All of them, in the order in which their files are read.
    pub const ALL: [StreamCall; 3] = [StreamCall::Lines, StreamCall::Writes, StreamCall::Clocks];
}

impl Calls for StreamCall {
    fn file_name(&self) -> &'static str {
        match self {
            StreamCall::Lines => "line_reader.rows",
            StreamCall::Writes => "writes.rows",
            StreamCall::Clocks => "clocks.rows",
        }
    }

    fn answer(&self, alloc: Global, given: &str) -> Result<String, LineFault> {
        match self {
            StreamCall::Lines => lines(alloc, given),
            StreamCall::Writes => written(alloc, given),
            StreamCall::Clocks => readings(alloc, given),
        }
    }
}

// What a reader of lines of at most 8 bytes answers to a text, as `ab/cd/ in 4 failing 2`: `/` is a newline of the text,
// and a read gives at most 4 bytes, of which the second fails. Each line and a `|`, `!` for one that is too long, `?` for
// a read that failed, `$` for the end.
fn lines(alloc: Global, given: &str) -> Result<String, LineFault> {
    let Some((text, moves)) = given.split_once(" in ") else {
        return Err(LineFault::Malformed);
    };
    let moves = moves_of(alloc, moves)?;
    let bytes = unquoted(text).replace(alloc, '/', "\n")?;
    let mut source = moves.source(alloc, bytes.as_bytes())?;
    let answers = answers_of(alloc, &mut source)?;
    Ok(String::from_utf8_lossy(alloc, &answers)?)
}

fn answers_of(alloc: Global, source: &mut MemorySource) -> Result<Vec<u8>, AllocError> {
    let mut reader = LineReader::make(alloc, LIMIT)?;
    let mut answers = Vec::new(alloc);
    for _ in 0..ANSWERS {
        match reader.next(source) {
            Ok(Line::Bytes(line)) => {
                answers.extend_from_slice(line)?;
                answers.push(b'|')?;
            }
            Ok(Line::TooLong) => answers.push(b'!')?,
            Ok(Line::End) => {
                answers.push(b'$')?;
                break;
            }
            Err(ReadFault::Read) => answers.push(b'?')?,
            Err(ReadFault::Spent) => answers.push(b'.')?,
        }
    }
    Ok(answers)
}

// What a sink has after a text was written to it, as `hello in 2 capacity 4 failing 3`, and whether the write was told as
// whole.
fn written(alloc: Global, given: &str) -> Result<String, LineFault> {
    let Some((text, moves)) = given.split_once(" in ") else {
        return Err(LineFault::Malformed);
    };
    let moves = moves_of(alloc, moves)?;
    let mut sink = moves.sink(alloc)?;
    let ending = match write_all(&mut sink, text.as_bytes()) {
        Ok(()) => "whole",
        Err(_) => "failed after",
    };
    if sink.written().is_empty() {
        return Ok(format!(in alloc; "{ending}: nothing")?);
    }
    let written = String::from_utf8_lossy(alloc, sink.written())?;
    Ok(format!(in alloc; "{ending}: {written}")?)
}

// What a clock of these readings shows first, and then twice each it and its copy.
fn readings(alloc: Global, given: &str) -> Result<String, LineFault> {
    let numbers = numbers_of(alloc, given)?;
    if numbers.is_empty() {
        return Err(LineFault::Malformed);
    }
    let mut clock = MemoryClock::make(alloc, &numbers)?;
    let first = clock.now();
    let mut copy = clock.fork(alloc)?;
    let own = (clock.now(), clock.now());
    let copied = (copy.now(), copy.now());
    Ok(format!(in alloc;
        "{first}, then {} {}, the copy {} {}",
        own.0, own.1, copied.0, copied.1
    )?)
}
