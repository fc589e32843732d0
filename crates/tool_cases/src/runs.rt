//! Whole calls of the tool, over a source, a sink and an output in memory.

use crate::moves::{Ends, bytes_of, shown, split_or, told_ends};
use crate::words::{words_and_spec, words_of};
use case_text::LineFault;
use cue_tool::run_cue;
use farm_types::{Items, Text};
use std::alloc::{AllocError, Global};

/// What a call of the tool answers, sends and prints, as `tick then {"down":0,"lost":0,"ok":true}/; reads in 4 failing 2; sends in 3; prints in 5 capacity 9`:
/// the words, what the source has, and how the source, the sink and the output move bytes, where that is to be told. `/` is a newline, `«bytes ff»` the byte 255,
/// and `«3×ab»` is ababab.
pub fn ran(alloc: Global, given: &str) -> Result<String, LineFault> {
    let (given, ends) = told_ends(alloc, given)?;
    let (asked, has) = split_or(given, " then ", "");
    let has = bytes_of(alloc, has)?;
    let (words, spec) = words_and_spec(asked);
    let words = words_of(alloc, words)?;
    Ok(told(alloc, &words, spec, &ends, has.as_slice())?)
}

// Makes the call, and tells what it answers, sends and prints.
fn told(
    alloc: Global,
    words: &Items<Text>,
    spec: Option<&str>,
    ends: &Ends,
    has: &[u8],
) -> Result<String, AllocError> {
    let mut source = ends.reads.source(alloc, has)?;
    let mut sink = ends.sends.sink(alloc)?;
    let mut out = ends.prints.sink(alloc)?;
    let status = run_cue(
        alloc,
        words.as_slice(),
        spec,
        &mut source,
        &mut sink,
        &mut out,
    );
    let code = status.code();
    let sent = shown(alloc, &sink)?;
    let printed = shown(alloc, &out)?;
    format!(in alloc; "{code}, sent {sent}, printed {printed}")
}
