//! Rows of stores.

use farm_keeper::{Batch, Keeper, MemoryKeeper, Row};
use farm_types::Items;
use std::alloc::{AllocError, Global};

/// Whether two lists have the same rows in the same order.
pub fn are_same(ones: &[Row], others: &[Row]) -> bool {
    if ones.len() != others.len() {
        return false;
    }
    for (one, other) in ones.iter().zip(others.iter()) {
        if !is_same(one, other) {
            return false;
        }
    }
    true
}

fn is_same(one: &Row, other: &Row) -> bool {
    one.kind == other.kind && one.id == other.id && one.bytes.as_slice() == other.bytes.as_slice()
}

/// A keeper in memory of these rows, whose calls behind the one that puts them fail by their numbers from 1.
pub fn keeper_of(alloc: Global, rows: &[Row], failing: &[u64]) -> Result<MemoryKeeper, AllocError> {
    let mut later = Vec::new(alloc);
    for call in failing {
        later.push(call.saturating_add(1))?;
    }
    let mut keeper = MemoryKeeper::make(alloc, &later)?;
    put(alloc, &mut keeper, puts_of(alloc, rows)?)?;
    Ok(keeper)
}

// A batch that puts the rows.
fn puts_of(alloc: Global, rows: &[Row]) -> Result<Batch, AllocError> {
    let mut puts = Items::new(alloc);
    for row in rows {
        puts.push(row.copy(alloc)?)?;
    }
    Ok(Batch {
        puts,
        deletes: Items::new(alloc),
    })
}

// Commits a batch that isn't to fail.
fn put(alloc: Global, keeper: &mut MemoryKeeper, batch: Batch) -> Result<(), AllocError> {
    match keeper.commit(alloc, batch) {
        Ok(()) => Ok(()),
        Err(_) => Err(AllocError),
    }
}

/// The rows that a keeper has, and where it refused a batch since its last Ok those with the first such batch. None of its next calls is to fail.
pub fn rows_of(
    alloc: Global,
    mut keeper: MemoryKeeper,
) -> Result<(Items<Row>, Option<Items<Row>>), AllocError> {
    let without = loaded(alloc, &mut keeper)?;
    let Some(batch) = first_refused(alloc, &keeper)? else {
        return Ok((without, None));
    };
    put(alloc, &mut keeper, batch)?;
    Ok((without, Some(loaded(alloc, &mut keeper)?)))
}

fn first_refused(alloc: Global, keeper: &MemoryKeeper) -> Result<Option<Batch>, AllocError> {
    match keeper.refused().first() {
        Some(batch) => Ok(Some(batch.copy(alloc)?)),
        None => Ok(None),
    }
}

// The rows of a keeper whose next call isn't to fail.
fn loaded(alloc: Global, keeper: &mut MemoryKeeper) -> Result<Items<Row>, AllocError> {
    match keeper.load(alloc) {
        Ok(rows) => Ok(rows),
        Err(_) => Err(AllocError),
    }
}
