//! What differs first between what a case tells and what came.

use crate::case::Case;
use crate::life::{Life, run};
use crate::spawner_calls::call_lines;
use case_text::{line_difference, status_difference, take_lines};
use cue_io::{MemorySink, MemorySource};
use std::alloc::{AllocError, Global};

/// Runs the life of a case, behind the shared lines of its file, and says what differed first from what it tells.
pub fn difference(alloc: Global, shared: &str, told: &str) -> Result<Option<String>, AllocError> {
    let mut case = Case::new(alloc);
    if let Some(line) = take_lines(&mut case, alloc, shared)? {
        return malformed(alloc, line);
    }
    if let Some(line) = take_lines(&mut case, alloc, told)? {
        return malformed(alloc, line);
    }
    let life = run(alloc, &case)?;
    life_difference(alloc, &case, &life)
}

fn malformed(alloc: Global, line: &str) -> Result<Option<String>, AllocError> {
    Ok(Some(format!(in alloc; "the case has a malformed line: {line}")?))
}

// The first place, request, call or count that is another one.
fn life_difference(alloc: Global, case: &Case, life: &Life) -> Result<Option<String>, AllocError> {
    if let Some(found) = line_difference(alloc, "place", &case.places, life.places.as_bytes())? {
        return Ok(Some(found));
    }
    if let Some(found) = stream_difference(alloc, case, life)? {
        return Ok(Some(found));
    }
    let calls = call_lines(alloc, life.spawner.calls())?;
    if let Some(found) = line_difference(alloc, "call", &case.calls, calls.as_bytes())? {
        return Ok(Some(found));
    }
    fault_difference(
        alloc,
        case.failing_calls.len() as u64,
        life.spawner.faults(),
    )
}

// The first request that is another one, another status, or another number of reads and writes that failed; of a life without a connection only the status can be.
fn stream_difference(
    alloc: Global,
    case: &Case,
    life: &Life,
) -> Result<Option<String>, AllocError> {
    match &life.ends {
        Some((source, sink)) => connection_difference(alloc, case, life, source, sink),
        None => code_difference(alloc, case.status, life.status.code()),
    }
}

fn connection_difference(
    alloc: Global,
    case: &Case,
    life: &Life,
    source: &MemorySource,
    sink: &MemorySink,
) -> Result<Option<String>, AllocError> {
    if let Some(found) = line_difference(alloc, "request", &case.requests, sink.written())? {
        return Ok(Some(found));
    }
    status_difference(alloc, case.status, life.status.code(), source, sink)
}

// Another status.
fn code_difference(alloc: Global, told: u8, came: u8) -> Result<Option<String>, AllocError> {
    if told == came {
        return Ok(None);
    }
    Ok(Some(format!(in alloc; "the status is {came} and should be {told}, without a connection")?))
}

// Another number of spawner calls that failed.
fn fault_difference(alloc: Global, told: u64, came: u64) -> Result<Option<String>, AllocError> {
    if told == came {
        return Ok(None);
    }
    Ok(Some(format!(in alloc; "{came} spawner calls failed")?))
}
