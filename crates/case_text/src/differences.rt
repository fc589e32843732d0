//! What differs first between lines that are told and lines that came.

use cue_io::{MemorySink, MemorySource};
use std::alloc::{AllocError, Global};
use std::str;

// The status of a program whose read failed, and of one whose write failed.
const READ: u8 = 4;

const WRITE: u8 = 5;

/// The first line that is another one, or is missing or too many. `kind` says what the lines are, as `reply`.
pub fn line_difference(
    alloc: Global,
    kind: &str,
    told: &[u8],
    came: &[u8],
) -> Result<Option<String>, AllocError> {
    let told_lines = told.split(|byte| *byte == b'\n');
    let came_lines = came.split(|byte| *byte == b'\n');
    for (index, (told, came)) in told_lines.zip(came_lines).enumerate() {
        if told != came {
            return Ok(Some(format!(in alloc;
                "{kind} {} is {} and should be {}",
                index + 1,
                shown(came),
                shown(told)
            )?));
        }
    }
    length_difference(alloc, kind, told.len(), came.len())
}

// Another number of bytes.
fn length_difference(
    alloc: Global,
    kind: &str,
    told: usize,
    came: usize,
) -> Result<Option<String>, AllocError> {
    if told == came {
        return Ok(None);
    }
    Ok(Some(format!(in alloc; "the {kind} lines have {came} bytes and should have {told}")?))
}

/// Bytes as text, where they are one.
pub fn shown(bytes: &[u8]) -> &str {
    if bytes.is_empty() {
        return "missing";
    }
    str::from_utf8(bytes).unwrap_or("no text")
}

/// Another status, or another count of reads and writes that failed: a program ends at the first failing read or write.
pub fn status_difference(
    alloc: Global,
    told: u8,
    came: u8,
    source: &MemorySource,
    sink: &MemorySink,
) -> Result<Option<String>, AllocError> {
    if told != came {
        return Ok(Some(format!(in alloc; "the status is {came} and should be {told}")?));
    }
    let failed_reads = source.faults();
    if failed_reads != u64::from(told == READ) {
        return Ok(Some(format!(in alloc; "{failed_reads} reads failed")?));
    }
    let failed_writes = sink.faults();
    if failed_writes != u64::from(told == WRITE) {
        return Ok(Some(format!(in alloc; "{failed_writes} writes failed")?));
    }
    Ok(None)
}
