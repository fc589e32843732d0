//! A session whose keeper fails at each of its calls in turn.

use crate::case::Case;
use crate::ended::{Ended, run, run_again};
use crate::pieces::{cut_before, first_other, line_at, without_line};
use crate::row_difference::list_difference;
use crate::store::{Left, is_script, rows_with};
use case_text::{line_difference, shown};
use command_line::Status;
use farm_keeper::Row;
use std::alloc::{AllocError, Global};
use std::str;

// The refusal of a line that the store failed.
const REFUSAL: &[u8] = b"{\"code\":15,\"ok\":false,\"why\":\"store\"}";

// What stands in the reply to a report whose round the store ended.
const CUT: &str = "\"cut\":\"store\"";

/// Runs a session over these rows once for each of its keeper's calls, which fails then, and says what differed first from what is promised:
/// status 3 with nothing written and no row changed, or the replies as they are told up to one, which tells of the store. A session that is
/// refused a line goes on as one without that line. One that is stopped behind the fault goes on, over the rows that it left, as if it hadn't
/// been; and with the refused batch, they are a farm too.
pub fn in_turn_difference(
    alloc: Global,
    case: &Case,
    rows: &[Row],
    calls: u64,
) -> Result<Option<String>, AllocError> {
    for before in 0..calls {
        let call = before.saturating_add(1);
        if let Some(found) = fault_difference(alloc, case, rows, call)? {
            return Ok(Some(format!(in alloc; "where keeper call {call} fails, {found}")?));
        }
    }
    Ok(None)
}

// What differs where that call fails.
fn fault_difference(
    alloc: Global,
    case: &Case,
    rows: &[Row],
    call: u64,
) -> Result<Option<String>, AllocError> {
    let mut ended = run(alloc, case, rows, &case.requests, &[call])?;
    let faults = ended.keeper.faults();
    if faults != 1 {
        return Ok(Some(format!(in alloc; "{faults} calls failed")?));
    }
    let left = Left::of(alloc, &mut ended.keeper, 1)?;
    if ended.status == Status::StoreFailed {
        return unopened_difference(alloc, case, rows, &ended, &left);
    }
    let status = ended.status.code();
    if status != case.status {
        return Ok(Some(format!(in alloc; "the status is {status}")?));
    }
    opened_difference(alloc, case, rows, call, ended.sink.written(), &left)
}

// What differs of a session that wasn't opened.
fn unopened_difference(
    alloc: Global,
    case: &Case,
    rows: &[Row],
    ended: &Ended,
    left: &Left,
) -> Result<Option<String>, AllocError> {
    if let Some(found) = line_difference(alloc, "reply", &[], ended.sink.written())? {
        return Ok(Some(found));
    }
    // Of the demonstration's rows those are there that came before the fault.
    if is_script(case.words.as_slice()) {
        if let Some(found) = list_difference(alloc, rows, left.rows.as_slice())? {
            return Ok(Some(found));
        }
    }
    stop_difference(alloc, case, left)
}

// What differs of a session that went on behind the fault, by these replies and to these rows.
fn opened_difference(
    alloc: Global,
    case: &Case,
    rows: &[Row],
    call: u64,
    came: &[u8],
    left: &Left,
) -> Result<Option<String>, AllocError> {
    let number = first_other(&case.replies, came);
    let reply = line_at(came, number);
    if !is_marked(reply) {
        return Ok(Some(format!(in alloc;
            "reply {} is {}",
            number.saturating_add(1),
            shown(reply)
        )?));
    }
    let marks = marks_in(came);
    if marks != 1 {
        return Ok(Some(format!(in alloc; "{marks} replies tell of the store")?));
    }
    if reply == REFUSAL {
        if let Some(found) = refused_difference(alloc, case, rows, number, came, left)? {
            return Ok(Some(format!(in alloc; "without the refused line {found}")?));
        }
    }
    stopped_difference(alloc, case, rows, call, number, came, left)
}

// How many replies tell of the store.
fn marks_in(replies: &[u8]) -> usize {
    let mut marks: usize = 0;
    for reply in replies.split(|byte| *byte == b'\n') {
        if is_marked(reply) {
            marks = marks.saturating_add(1);
        }
    }
    marks
}

// Whether a reply tells of the store.
fn is_marked(reply: &[u8]) -> bool {
    reply == REFUSAL || str::from_utf8(reply).unwrap_or("").contains(CUT)
}

// What differs between the session and one without the line of that number, which the store refused.
fn refused_difference(
    alloc: Global,
    case: &Case,
    rows: &[Row],
    number: usize,
    came: &[u8],
    left: &Left,
) -> Result<Option<String>, AllocError> {
    let requests = without_line(alloc, &case.requests, number)?;
    let replies = without_line(alloc, came, number)?;
    let mut ended = run(alloc, case, rows, &requests, &[])?;
    same_difference(alloc, &mut ended, &replies, left)
}

// What differs of a session that is stopped behind the line of that number, and opened again for the other lines.
fn stopped_difference(
    alloc: Global,
    case: &Case,
    rows: &[Row],
    call: u64,
    number: usize,
    came: &[u8],
    left: &Left,
) -> Result<Option<String>, AllocError> {
    let past = number.saturating_add(1);
    let (before, after) = cut_before(&case.requests, past);
    let (_told, replies) = cut_before(came, past);
    let mut stopped = run(alloc, case, rows, before, &[call])?;
    let stop = Left::of(alloc, &mut stopped.keeper, 1)?;
    if let Some(found) = stop_difference(alloc, case, &stop)? {
        return Ok(Some(found));
    }
    let mut ended = run_again(alloc, case, stop.rows.as_slice(), after)?;
    if let Some(found) = same_difference(alloc, &mut ended, replies, left)? {
        return Ok(Some(format!(in alloc; "opened again {found}")?));
    }
    Ok(None)
}

// What differs of a session that has to answer these replies and to leave this.
fn same_difference(
    alloc: Global,
    ended: &mut Ended,
    replies: &[u8],
    left: &Left,
) -> Result<Option<String>, AllocError> {
    if let Some(found) = line_difference(alloc, "reply", replies, ended.sink.written())? {
        return Ok(Some(found));
    }
    let other = Left::of(alloc, &mut ended.keeper, 0)?;
    list_difference(alloc, left.rows.as_slice(), other.rows.as_slice())
}

// That what a stop leaves is no farm: the rows, or the rows with a refused batch.
fn stop_difference(alloc: Global, case: &Case, left: &Left) -> Result<Option<String>, AllocError> {
    let rows = left.rows.as_slice();
    if !is_farm(alloc, case, rows)? {
        return Ok(Some(String::from_str(alloc, "the rows are no farm")?));
    }
    for batch in &left.refused {
        let rows = rows_with(alloc, rows, batch)?;
        if !is_farm(alloc, case, rows.as_slice())? {
            return Ok(Some(String::from_str(
                alloc,
                "the rows with the refused batch are no farm",
            )?));
        }
    }
    Ok(None)
}

// Whether a session opens over the rows.
fn is_farm(alloc: Global, case: &Case, rows: &[Row]) -> Result<bool, AllocError> {
    let ended = run_again(alloc, case, rows, &[])?;
    Ok(ended.status == Status::Done)
}
