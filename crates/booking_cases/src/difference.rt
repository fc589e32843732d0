//! What differs first between what a case tells and what comes.

use crate::case::{Case, Row};
use crate::part::{Played, play_part};
use case_text::{Cases, take_lines};
use farm_types::Items;
use std::alloc::{AllocError, Global};

/// Runs the steps that cases tell.
pub struct BookingCases;

impl Cases for BookingCases {
    fn difference(
        &self,
        alloc: Global,
        shared: &str,
        told: &str,
    ) -> Result<Option<String>, AllocError> {
        case_difference(alloc, shared, told)
    }
}

// Takes the shared lines of the file and those of the case, and runs the steps that they tell.
fn case_difference(alloc: Global, shared: &str, told: &str) -> Result<Option<String>, AllocError> {
    let mut case = Case::new(alloc);
    if let Some(line) = take(alloc, &mut case, shared, told)? {
        return Ok(Some(format!(in alloc; "the case has a malformed line: {line}")?));
    }
    if case.asked.is_some() {
        return Ok(Some(String::from_str(alloc, "the last step has no answer")?));
    }
    rows_difference(alloc, &case)
}

// Takes the lines, up to the first malformed one, which is the answer.
fn take<'a>(
    alloc: Global,
    case: &mut Case,
    shared: &'a str,
    told: &'a str,
) -> Result<Option<&'a str>, AllocError> {
    if let Some(line) = take_lines(case, alloc, shared)? {
        return Ok(Some(line));
    }
    take_lines(case, alloc, told)
}

// Runs the steps, each part of them on a table of its own, over the rows that the one before left.
fn rows_difference(alloc: Global, case: &Case) -> Result<Option<String>, AllocError> {
    let mut stored = Items::new(alloc);
    let mut is_first = true;
    for rows in case.rows.as_slice().split(is_new_table) {
        let failing: &[u64] = if is_first {
            case.failing.as_slice()
        } else {
            &[]
        };
        match play_part(alloc, stored.as_slice(), failing, rows)? {
            Played::Differs { found } => return Ok(Some(found)),
            Played::Went { rows } => stored = rows,
        }
        is_first = false;
    }
    Ok(None)
}

fn is_new_table(row: &Row) -> bool {
    matches!(row, Row::NewTable)
}
