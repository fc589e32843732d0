//! One stop: what it leaves, opened again.

use crate::expected::{Expected, expected_of, expected_unopened};
use crate::fault::{Fault, wrong};
use crate::remains::{BothRemains, LEAVINGS};
use crate::rows::are_same;
use crate::store::{Ran, contents_of, rows_in, run_over};
use command_line::Status;
use farm_keeper::Row;
use recovery::recover;
use std::alloc::{AllocError, Global};
use std::str;
use store_work::{Contents, Stop, has_stopped};

/// The line at which a session was stopped, from 1, with 0 for the opening, and how many of the ways to leave the files gave the rows without the
/// batch that the stop cut, and how many with it.
#[derive(Clone, Copy, Debug, PartialEq, Eq)]
pub struct Found {
    pub line: usize,
    pub without: u64,
    pub with: u64,
}

/// What a stop leaves of a session of these lines, or nothing where the session ended before it. It has to write what a session over a keeper in
/// memory writes that fails at the same calls, and what is left has to be the rows of that one, and a farm, over which the other lines are answered.
pub fn stop_at(alloc: Global, lines: &[u8], stop: Stop) -> Result<Option<Found>, Fault> {
    let mut ran = run_over(alloc, &Contents::none(alloc), stop, lines)?;
    let is_stopped = has_stopped(&mut ran.files.log) || has_stopped(&mut ran.files.db);
    if !is_stopped && !(ran.is_opened && ran.told.failed.is_empty()) {
        return Err(wrong(alloc, "the store failed, and no disk stopped"));
    }
    let expected = expected_for(alloc, &ran, lines)?;
    if ran.told.status != expected.status || ran.told.written != expected.written {
        return Err(wrong(
            alloc,
            "it writes something else than over a keeper in memory",
        ));
    }
    let line = if expected.status == Status::StoreFailed {
        0
    } else {
        line_of_store(&ran.told.written)
    };
    let found = left_by(alloc, &expected, ran, rest_of(lines, line), line)?;
    Ok(if is_stopped { Some(found) } else { None })
}

// What the session has to do.
fn expected_for(alloc: Global, ran: &Ran, lines: &[u8]) -> Result<Expected, AllocError> {
    if ran.is_opened {
        expected_of(alloc, &[], lines, &ran.told.failed)
    } else {
        Ok(expected_unopened(alloc))
    }
}

// The number of the first line that is answered by a fault of the store, from 1, or the number behind the last line.
fn line_of_store(written: &[u8]) -> usize {
    let mut line: usize = 1;
    for reply in str::from_utf8(written).unwrap_or("").lines() {
        if reply.contains("\"why\":\"store\"") || reply.contains("\"cut\":\"store\"") {
            return line;
        }
        line = line.saturating_add(1);
    }
    line
}

// The lines from that of the number on.
fn rest_of(lines: &[u8], line: usize) -> &[u8] {
    let mut number: usize = 1;
    for (place, byte) in lines.iter().enumerate() {
        if number >= line {
            return lines.get(place..).unwrap_or(&[]);
        }
        if *byte == b'\n' {
            number = number.saturating_add(1);
        }
    }
    &[]
}

// What is left in each way.
fn left_by(
    alloc: Global,
    expected: &Expected,
    ran: Ran,
    rest: &[u8],
    line: usize,
) -> Result<Found, Fault> {
    let remains = BothRemains::of(alloc, ran.files)?;
    let mut found = Found {
        line,
        without: 0,
        with: 0,
    };
    for leaving in LEAVINGS {
        if !remains.is_new(leaving) {
            continue;
        }
        let contents = remains.contents(alloc, leaving)?;
        if is_left_without(alloc, expected, &contents, rest)? {
            found.without = found.without.saturating_add(1);
        } else {
            found.with = found.with.saturating_add(1);
        }
    }
    Ok(found)
}

// Whether files hold the rows without the batch that the stop cut, where else they have to hold those with it.
fn is_left_without(
    alloc: Global,
    expected: &Expected,
    contents: &Contents,
    rest: &[u8],
) -> Result<bool, Fault> {
    let rows = rows_in(alloc, contents)?;
    if recover(alloc, rows.as_slice()).is_err() {
        return Err(wrong(alloc, "what is left is no farm"));
    }
    goes_on(alloc, contents, rows.as_slice(), rest)?;
    if are_same(rows.as_slice(), expected.without.as_slice()) {
        return Ok(true);
    }
    if let Some(with) = &expected.with {
        if are_same(rows.as_slice(), with.as_slice()) {
            return Ok(false);
        }
    }
    Err(wrong(alloc, "what is left isn't what was acknowledged"))
}

// A session over the files, of which these are the rows, goes on as one over a keeper in memory of the rows, and leaves the same.
fn goes_on(alloc: Global, contents: &Contents, rows: &[Row], rest: &[u8]) -> Result<(), Fault> {
    let expected = expected_of(alloc, rows, rest, &[])?;
    let ran = run_over(alloc, contents, Stop::NEVER, rest)?;
    if ran.told.status != expected.status || ran.told.written != expected.written {
        return Err(wrong(alloc, "opened again it goes on otherwise"));
    }
    let left = rows_in(alloc, &contents_of(alloc, &ran.files)?)?;
    if are_same(left.as_slice(), expected.without.as_slice()) {
        Ok(())
    } else {
        Err(wrong(alloc, "what it goes on to leave is something else"))
    }
}
