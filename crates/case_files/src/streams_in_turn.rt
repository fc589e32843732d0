//! Sessions whose source fails at each of its reads in turn, or whose sink at each of its writes.

use crate::case::Case;
use crate::ended::{Ended, run, run_failing};
use crate::pieces::{cut_before, lines_in};
use crate::row_difference::list_difference;
use crate::store::Left;
use case_text::{line_difference, status_difference};
use command_line::Status;
use farm_keeper::Row;
use std::alloc::{AllocError, Global};

// More calls than a session makes.
const MOST_CALLS: u64 = 1000000;

/// Runs a session over these rows once for each of its reads, which fails then, and says what differed first from what is promised: status 4, the replies to the lines
/// that were whole by then, and the rows that these leave.
pub fn reads_difference(
    alloc: Global,
    case: &Case,
    rows: &[Row],
) -> Result<Option<String>, AllocError> {
    for before in 0..MOST_CALLS {
        let call = before.saturating_add(1);
        let mut ended = run_failing(alloc, case, rows, &[call], &[])?;
        if ended.source.faults() == 0 {
            return Ok(None);
        }
        let read = (before as usize).saturating_mul(case.reads.most.max(1));
        let lines = lines_in(case.requests.get(..read).unwrap_or(&case.requests));
        let (replies, _others) = cut_before(&case.replies, lines);
        let status = Status::ReadFailed;
        if let Some(found) = end_difference(
            alloc, case, rows, &mut ended, status, replies, lines,
        )? {
            return Ok(Some(format!(in alloc; "where read {call} fails, {found}")?));
        }
    }
    Ok(None)
}

/// Runs a session over these rows once for each of its writes, which fails then, and says what differed first from what is promised: status 5, the bytes that the writes
/// before took, and the rows that the lines leave up to the one whose reply it was.
pub fn writes_difference(
    alloc: Global,
    case: &Case,
    rows: &[Row],
) -> Result<Option<String>, AllocError> {
    let mut written: usize = 0;
    for before in 0..MOST_CALLS {
        let call = before.saturating_add(1);
        let mut ended = run_failing(alloc, case, rows, &[], &[call])?;
        if ended.sink.faults() == 0 {
            return Ok(None);
        }
        let replies = case.replies.get(..written).unwrap_or(&case.replies);
        let others = case.replies.get(written..).unwrap_or(&[]);
        let lines = lines_in(replies).saturating_add(1);
        let status = Status::WriteFailed;
        if let Some(found) = end_difference(
            alloc, case, rows, &mut ended, status, replies, lines,
        )? {
            return Ok(Some(format!(in alloc; "where write {call} fails, {found}")?));
        }
        let (reply, _others) = cut_before(others, 1);
        written = written.saturating_add(reply.len().min(case.writes.most));
    }
    Ok(None)
}

// What differs of a session that has to end with this status, to have written this, and to leave what so many of its lines leave.
fn end_difference(
    alloc: Global,
    case: &Case,
    rows: &[Row],
    ended: &mut Ended,
    status: Status,
    replies: &[u8],
    lines: usize,
) -> Result<Option<String>, AllocError> {
    let (source, sink) = (&ended.source, &ended.sink);
    if let Some(found) = status_difference(
        alloc,
        status.code(),
        ended.status.code(),
        source,
        sink,
    )? {
        return Ok(Some(found));
    }
    if let Some(found) = line_difference(alloc, "reply", replies, sink.written())? {
        return Ok(Some(found));
    }
    let left = Left::of(alloc, &mut ended.keeper, 0)?;
    let (requests, _others) = cut_before(&case.requests, lines);
    let mut whole = run(alloc, case, rows, requests, &[])?;
    let other = Left::of(alloc, &mut whole.keeper, 0)?;
    list_difference(alloc, other.rows.as_slice(), left.rows.as_slice())
}
