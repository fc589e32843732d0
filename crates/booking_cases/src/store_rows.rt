//! The rows that a keeper has.

use farm_keeper::{Keeper, MemoryKeeper, Row};
use farm_types::Items;
use std::alloc::{AllocError, Global};

/// The rows of a keeper, of which at most so many loads fail.
pub(crate) fn rows_in(
    alloc: Global,
    keeper: &mut MemoryKeeper,
    failing: usize,
) -> Result<Items<Row>, AllocError> {
    for _ in 0..failing {
        if let Ok(rows) = keeper.load(alloc) {
            return Ok(rows);
        }
    }
    match keeper.load(alloc) {
        Ok(rows) => Ok(rows),
        Err(_) => Err(AllocError),
    }
}
