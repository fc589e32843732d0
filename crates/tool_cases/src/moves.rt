//! How bytes move in the rows of calls, and what is told of them.

use case_text::{LineFault, Moves, moves_of, text_bytes};
use cue_io::MemorySink;
use std::alloc::{AllocError, Global};

// How many bytes a call moves at most where the row says nothing.
const WHOLE: &str = "4096";

// How many bytes of what was sent or printed an answer shows at most.
const SHOWN: usize = 1024;

/// How the source, the sink and the output move bytes.
#[derive(Drop)]
pub struct Ends {
    pub reads: Moves,
    pub sends: Moves,
    pub prints: Moves,
}

/// What a row tells of them, behind the rest of it.
pub fn told_ends(alloc: Global, given: &str) -> Result<(&str, Ends), LineFault> {
    let (given, prints) = split_or(given, "; prints in ", WHOLE);
    let (given, sends) = split_or(given, "; sends in ", WHOLE);
    let (given, reads) = split_or(given, "; reads in ", WHOLE);
    let ends = ends_of(alloc, reads, sends, prints)?;
    Ok((given, ends))
}

fn ends_of(alloc: Global, reads: &str, sends: &str, prints: &str) -> Result<Ends, LineFault> {
    Ok(Ends {
        reads: moves_of(alloc, reads)?,
        sends: moves_of(alloc, sends)?,
        prints: moves_of(alloc, prints)?,
    })
}

/// The text before a mark and the one after it, or the whole one and another where the mark isn't there.
pub fn split_or<'a>(text: &'a str, mark: &str, other: &'a str) -> (&'a str, &'a str) {
    text.split_once(mark).unwrap_or((text, other))
}

/// The bytes that a text stands for: `/` is a newline.
pub fn bytes_of(alloc: Global, text: &str) -> Result<Vec<u8>, LineFault> {
    let text = text.replace(alloc, '/', "\n")?;
    text_bytes(alloc, text.as_str())
}

/// What was written as a row tells it: `nothing`, a text with `/` in place of newlines, or how many bytes where they are many.
pub fn shown(alloc: Global, sink: &MemorySink) -> Result<String, AllocError> {
    let bytes = sink.written();
    if bytes.is_empty() {
        return String::from_str(alloc, "nothing");
    }
    if bytes.len() > SHOWN {
        return format!(in alloc; "{} bytes", bytes.len());
    }
    String::from_utf8_lossy(alloc, bytes)?.replace(alloc, '\n', "/")
}
