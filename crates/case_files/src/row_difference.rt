//! What differs first between the rows that a case tells and those that a session left.

use crate::told_rows::{RowsAfter, ToldRows};
use case_text::shown;
use farm_keeper::Row;
use std::alloc::{AllocError, Global};

/// The first row that isn't as told after a session, where these were before it and those were left.
pub fn rows_difference(
    alloc: Global,
    told: &ToldRows,
    before: &[Row],
    left: &[Row],
) -> Result<Option<String>, AllocError> {
    match told.rows_after {
        RowsAfter::Among => missing_difference(alloc, told.after.as_slice(), left),
        RowsAfter::Exactly => list_difference(alloc, told.after.as_slice(), left),
        RowsAfter::AsBefore => list_difference(alloc, before, left),
    }
}

/// The first row that is another one, or is missing or too many.
pub fn list_difference(
    alloc: Global,
    told: &[Row],
    left: &[Row],
) -> Result<Option<String>, AllocError> {
    if let Some(found) = missing_difference(alloc, told, left)? {
        return Ok(Some(found));
    }
    for row in left {
        if find(told, row).is_none() {
            return Ok(Some(format!(in alloc;
                "row {} of kind {} is {} and should not be there",
                row.id,
                row.kind,
                shown(row.bytes.as_slice())
            )?));
        }
    }
    Ok(None)
}

// The first told row that is another one, or is missing.
fn missing_difference(
    alloc: Global,
    told: &[Row],
    left: &[Row],
) -> Result<Option<String>, AllocError> {
    for row in told {
        let came = find(left, row).unwrap_or(&[]);
        let bytes = row.bytes.as_slice();
        if came != bytes {
            return Ok(Some(format!(in alloc;
                "row {} of kind {} is {} and should be {}",
                row.id,
                row.kind,
                shown(came),
                shown(bytes)
            )?));
        }
    }
    Ok(None)
}

// The bytes of the row of that kind and id.
fn find<'a>(rows: &'a [Row], key: &Row) -> Option<&'a [u8]> {
    for row in rows {
        if row.kind == key.kind && row.id == key.id {
            return Some(row.bytes.as_slice());
        }
    }
    None
}
