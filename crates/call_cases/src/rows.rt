//! Bytes of rows of the store.

use case_text::{LineFault, text_bytes, unquoted};
use farm_rows::{FarmRow, ROW_FORMAT};
use json::Scratch;
use row_codec::{RowFault, decode, encode};
use std::alloc::Global;

/// Whether bytes are those of a row of a kind and an id, as `4 16 {"burst":2000,"size":1000}`: `row`, or the fault.
pub fn row_bytes(alloc: Global, given: &str) -> Result<String, LineFault> {
    let Some((kind, id, text)) = parts(given) else {
        return Err(LineFault::Malformed);
    };
    let bytes = text_bytes(alloc, unquoted(text))?;
    let mut scratch = Scratch::new(alloc);
    match decode(alloc, ROW_FORMAT, kind, id, bytes.as_slice(), &mut scratch) {
        Ok(row) => same_row(alloc, kind, id, &row, bytes.as_slice()),
        Err(fault) => told(alloc, fault),
    }
}

/// Whether bytes are those of a row of format 1: `row`, or the fault.
pub fn old_row_bytes(alloc: Global, given: &str) -> Result<String, LineFault> {
    let Some((kind, id, text)) = parts(given) else {
        return Err(LineFault::Malformed);
    };
    let bytes = text_bytes(alloc, unquoted(text))?;
    let mut scratch = Scratch::new(alloc);
    match decode(alloc, 1, kind, id, bytes.as_slice(), &mut scratch) {
        Ok(row) => row_if(alloc, is_named(&row, kind, id)),
        Err(fault) => told(alloc, fault),
    }
}

/// The kind, the id and the text of the bytes.
pub fn parts(given: &str) -> Option<(u8, u64, &str)> {
    let (kind, rest) = given.split_once(' ')?;
    let (id, text) = rest.split_once(' ')?;
    let kind = kind.parse::<u8>().ok()?;
    let id = id.parse::<u64>().ok()?;
    Some((kind, id, text))
}

// Whether the row that was read is of that kind and id, and gives the bytes back.
fn same_row(
    alloc: Global,
    kind: u8,
    id: u64,
    row: &FarmRow,
    bytes: &[u8],
) -> Result<String, LineFault> {
    let again = encode(alloc, row, &mut Vec::new(alloc))?;
    row_if(alloc, is_named(row, kind, id) && again.as_slice() == bytes)
}

// Whether the row is of that kind and id.
fn is_named(row: &FarmRow, kind: u8, id: u64) -> bool {
    row.kind() == kind && row.id() == id
}

// What is said of a row that is the one whose bytes were given, and of another.
fn row_if(alloc: Global, is_same: bool) -> Result<String, LineFault> {
    let words = if is_same { "row" } else { "another row" };
    Ok(String::from_str(alloc, words)?)
}

// The fault in its own words.
fn told(alloc: Global, fault: RowFault) -> Result<String, LineFault> {
    match fault {
        RowFault::BadBytes { .. } => Ok(format!(in alloc; "{fault}")?),
        RowFault::NoMemory => Err(LineFault::NoMemory),
    }
}
