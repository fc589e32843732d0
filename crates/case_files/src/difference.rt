//! What differs first between what a case tells and what came.

use crate::case::Case;
use crate::ended::{Ended, run};
use crate::in_turn::in_turn_difference;
use crate::row_difference::rows_difference;
use crate::store::{Left, rows_with};
use crate::streams_in_turn::{reads_difference, writes_difference};
use case_text::{line_difference, status_difference, take_lines, take_settings};
use farm_keeper::Row;
use farm_types::Items;
use std::alloc::{AllocError, Global};

/// Runs the sessions of a case one after the other, each over the rows that the one before left, and says what differed first from what it
/// tells. Before the first one come the shared lines of its file, before each other the settings among them.
pub fn difference(alloc: Global, shared: &str, told: &str) -> Result<Option<String>, AllocError> {
    let mut left = Left::none(alloc);
    let mut is_first = true;
    for told in told.split("\n## ") {
        if let Some(found) = session_difference(alloc, shared, told, is_first, &mut left)? {
            return Ok(Some(named(alloc, is_first, told, found)?));
        }
        is_first = false;
    }
    Ok(None)
}

// What differed, with the heading of a session that isn't the first.
fn named(alloc: Global, is_first: bool, told: &str, found: String) -> Result<String, AllocError> {
    if is_first {
        return Ok(found);
    }
    let heading = told.lines().next().unwrap_or("");
    format!(in alloc; "{heading}: {found}")
}

// Runs a session over what the one before left, says what differed first from what is told, and puts there what it left.
fn session_difference(
    alloc: Global,
    shared: &str,
    told: &str,
    is_first: bool,
    left: &mut Left,
) -> Result<Option<String>, AllocError> {
    let mut case = Case::new(alloc);
    if let Some(line) = take(alloc, &mut case, shared, told, is_first)? {
        return Ok(Some(format!(in alloc; "the case has a malformed line: {line}")?));
    }
    let Some(rows) = rows_before(alloc, left, &case)? else {
        return Ok(Some(String::from_str(alloc, "there is no such refused batch")?));
    };
    case_difference(alloc, &case, rows.as_slice(), left)
}

// Takes the lines of a session, up to the first malformed one, which is the answer.
fn take<'a>(
    alloc: Global,
    case: &mut Case,
    shared: &'a str,
    told: &'a str,
    is_first: bool,
) -> Result<Option<&'a str>, AllocError> {
    if is_first {
        if let Some(line) = take_lines(case, alloc, shared)? {
            return Ok(Some(line));
        }
        return take_lines(case, alloc, told);
    }
    if let Some(line) = take_settings(case, alloc, shared)? {
        return Ok(Some(line));
    }
    let (_heading, told) = told.split_once('\n').unwrap_or((told, ""));
    take_lines(case, alloc, told)
}

// The rows that a session begins with, or none where the refused batch that it names isn't there.
fn rows_before(alloc: Global, left: &Left, case: &Case) -> Result<Option<Items<Row>>, AllocError> {
    let batch = &case.rows.before;
    let Some(number) = case.refused_batch else {
        return Ok(Some(rows_with(alloc, left.rows.as_slice(), batch)?));
    };
    let Some(refused) = left.refused.get(number.saturating_sub(1) as usize) else {
        return Ok(None);
    };
    let rows = rows_with(alloc, left.rows.as_slice(), refused)?;
    Ok(Some(rows_with(alloc, rows.as_slice(), batch)?))
}

// Runs the session of a case over these rows, says what differed first, and puts there what it left.
fn case_difference(
    alloc: Global,
    case: &Case,
    rows: &[Row],
    left: &mut Left,
) -> Result<Option<String>, AllocError> {
    let failing = case.failing_keeper_calls.as_slice();
    let mut ended = run(alloc, case, rows, &case.requests, failing)?;
    if let Some(found) = line_difference(alloc, "reply", &case.replies, ended.sink.written())? {
        return Ok(Some(found));
    }
    if let Some(found) = ended_difference(alloc, case, &ended)? {
        return Ok(Some(found));
    }
    let calls = ended.keeper.calls().saturating_sub(1);
    *left = Left::of(alloc, &mut ended.keeper, failing.len())?;
    if let Some(found) = rows_difference(alloc, &case.rows, rows, left.rows.as_slice())? {
        return Ok(Some(found));
    }
    turns_difference(alloc, case, rows, calls)
}

// Runs the session again for each call that is to fail in turn, where its keeper made so many calls.
fn turns_difference(
    alloc: Global,
    case: &Case,
    rows: &[Row],
    calls: u64,
) -> Result<Option<String>, AllocError> {
    let turns = case.in_turn;
    if turns.reads {
        if let Some(found) = reads_difference(alloc, case, rows)? {
            return Ok(Some(found));
        }
    }
    if turns.writes {
        if let Some(found) = writes_difference(alloc, case, rows)? {
            return Ok(Some(found));
        }
    }
    if turns.keeper_calls {
        return in_turn_difference(alloc, case, rows, calls);
    }
    Ok(None)
}

// Another status, or another count of reads, writes and keeper calls that failed.
fn ended_difference(
    alloc: Global,
    case: &Case,
    ended: &Ended,
) -> Result<Option<String>, AllocError> {
    let (source, sink) = (&ended.source, &ended.sink);
    if let Some(found) = status_difference(alloc, case.status, ended.status.code(), source, sink)? {
        return Ok(Some(found));
    }
    let failed_calls = ended.keeper.faults();
    if failed_calls != case.failing_keeper_calls.len() as u64 {
        return Ok(Some(format!(in alloc; "{failed_calls} keeper calls failed")?));
    }
    Ok(None)
}
