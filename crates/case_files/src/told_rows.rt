//! What a case tells of the store's rows.

use case_text::{LineFault, text_bytes};
use farm_keeper::{Batch, Row};
use farm_types::Items;
use std::alloc::Global;

/// What is told of the rows after a session.
#[derive(Clone, Copy, Debug, PartialEq, Eq)]
pub enum RowsAfter {
    /// The told ones are among them.
    Among,
    /// They are the told ones.
    Exactly,
    /// They are those before the session.
    AsBefore,
}

/// The rows of the store before and after a session.
#[derive(Drop)]
pub struct ToldRows {
    /// What is put and deleted before the session, over the rows that are there.
    pub before: Batch,
    /// The rows that are told after it, and what is told of them.
    pub after: Items<Row>,
    pub rows_after: RowsAfter,
}

impl ToldRows {
    /// No rows before, and nothing told of those after.
    pub fn new(alloc: Global) -> ToldRows {
        ToldRows {
            before: Batch {
                puts: Items::new(alloc),
                deletes: Items::new(alloc),
            },
            after: Items::new(alloc),
            rows_after: RowsAfter::Among,
        }
    }

    /// Takes a line: `+ KIND ID BYTES` for a row before the session, `- KIND ID` for none, and `= KIND ID BYTES` for a row after it.
    pub fn take(&mut self, alloc: Global, line: &str) -> Result<(), LineFault> {
        if let Some(row) = line.strip_prefix("+ ") {
            self.before.puts.push(row_of(alloc, row)?)?;
        } else if let Some(key) = line.strip_prefix("- ") {
            self.before.deletes.push(key_of(key)?)?;
        } else if let Some(row) = line.strip_prefix("= ") {
            self.after.push(row_of(alloc, row)?)?;
        } else {
            return Err(LineFault::Malformed);
        }
        Ok(())
    }

    /// Sets what is told of the rows after the session.
    pub fn set_after(&mut self, value: &str) -> Result<(), LineFault> {
        self.rows_after = match value {
            "these" | "none" => RowsAfter::Exactly,
            "as before" => RowsAfter::AsBefore,
            _ => return Err(LineFault::Malformed),
        };
        Ok(())
    }
}

// The row that `KIND ID BYTES` tells. Without bytes it is the empty one.
fn row_of(alloc: Global, text: &str) -> Result<Row, LineFault> {
    let Some((kind, rest)) = text.split_once(' ') else {
        return Err(LineFault::Malformed);
    };
    let (id, spelled) = rest.split_once(' ').unwrap_or((rest, ""));
    let (kind, id) = key(kind, id)?;
    let bytes = Items::from_vec(text_bytes(alloc, spelled)?);
    Ok(Row { kind, id, bytes })
}

// The kind and the id that `KIND ID` tells.
fn key_of(text: &str) -> Result<(u8, u64), LineFault> {
    match text.split_once(' ') {
        Some((kind, id)) => key(kind, id),
        None => Err(LineFault::Malformed),
    }
}

fn key(kind: &str, id: &str) -> Result<(u8, u64), LineFault> {
    let (Ok(kind), Ok(id)) = (kind.parse::<u8>(), id.parse::<u64>()) else {
        return Err(LineFault::Malformed);
    };
    Ok((kind, id))
}
