//! The farm of rows that are given one after another.

use crate::rows::parts;
use case_text::{LineFault, text_bytes, unquoted};
use farm_keeper::Row;
use farm_types::Items;
use recovery::{RecoverFault, recover};
use std::alloc::Global;

/// Whether rows are a farm, as `1 0 {..} / 2 0 {"name":"alpha"}`, each a kind, an id and its bytes, in the order in which they are
/// given: `farm`, or the first one at fault.
pub fn recovered(alloc: Global, given: &str) -> Result<String, LineFault> {
    let rows = rows_of(alloc, given)?;
    match recover(alloc, rows.as_slice()) {
        Ok(_farm) => Ok(String::from_str(alloc, "farm")?),
        Err(fault) => told(alloc, fault),
    }
}

// The rows.
fn rows_of(alloc: Global, given: &str) -> Result<Items<Row>, LineFault> {
    let mut rows = Items::new(alloc);
    let given = unquoted(given);
    if given.is_empty() {
        return Ok(rows);
    }
    for text in given.split(" / ") {
        let Some((kind, id, spelled)) = parts(text) else {
            return Err(LineFault::Malformed);
        };
        let bytes = Items::from_vec(text_bytes(alloc, unquoted(spelled))?);
        rows.push(Row { kind, id, bytes })?;
    }
    Ok(rows)
}

// The fault in its own words.
fn told(alloc: Global, fault: RecoverFault) -> Result<String, LineFault> {
    match fault {
        RecoverFault::NoMemory => Err(LineFault::NoMemory),
        _ => Ok(format!(in alloc; "{fault}")?),
    }
}
