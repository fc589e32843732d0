//! What a session over a store has to write and to leave: what it does over a keeper in memory that fails at the same calls.

use crate::rows::{keeper_of, rows_of};
use crate::sessions::run;
use command_line::Status;
use farm_keeper::Row;
use farm_types::Items;
use std::alloc::{AllocError, Global};

/// What a session writes and answers, and which rows a stop behind it may leave: its own, or where the stop cut a batch those with it.
#[derive(Drop)]
pub struct Expected {
    pub status: Status,
    pub written: Vec<u8>,
    pub without: Items<Row>,
    pub with: Option<Items<Row>>,
}

/// What a session of these lines does, over these rows, whose keeper fails at these calls.
pub fn expected_of(
    alloc: Global,
    rows: &[Row],
    lines: &[u8],
    failing: &[u64],
) -> Result<Expected, AllocError> {
    let (told, keeper) = run(alloc, keeper_of(alloc, rows, failing)?, None, lines);
    let told = told?;
    let (without, with) = rows_of(alloc, keeper)?;
    Ok(Expected {
        status: told.status,
        written: told.written,
        without,
        with,
    })
}

/// What a session does whose store can't be opened: nothing, and there are no rows.
pub fn expected_unopened(alloc: Global) -> Expected {
    Expected {
        status: Status::StoreFailed,
        written: Vec::new(alloc),
        without: Items::new(alloc),
        with: None,
    }
}
