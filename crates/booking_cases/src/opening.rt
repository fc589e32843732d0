//! The farm that a table begins with, and the keeper of its rows.

ghost use Rattle.std.specs.Prelude.{◌≡◌, [], IfOk, OnOk};
ghost use Rattle.recorder_start.specs.Keeping.{IsKeptBy};

use farm_core::Farm;
use farm_keeper::{Batch, Keeper, MemoryKeeper, Row};
use farm_types::Items;
use recorder_start::{OpenFault, load_farm};
use std::alloc::{AllocError, Global};

/// The farm of these rows, with a keeper that holds them. The calls of the keeper in `failing` fail, by their number from 1: the load
/// of the rows is the first one.
pub(crate) fn opened(
    alloc: Global,
    rows: &[Row],
    failing: &[u64],
) -> Result<(Farm, MemoryKeeper), OpenFault>
    ensures { IfOk result (λ opened. IsKeptBy opened.0 opened.1) }
{
    let mut keeper = filled(alloc, rows, failing)?;
    let farm = load_farm(alloc, &mut keeper)?;
    Ok((farm, keeper))
}

// A keeper of the rows, which its first call put. That one doesn't count.
fn filled(alloc: Global, rows: &[Row], failing: &[u64]) -> Result<MemoryKeeper, AllocError>
    ensures { IfOk result (λ keeper. keeper.refused ≡ []) }
{
    let failing = one_later(alloc, failing)?;
    let mut keeper = MemoryKeeper::make(alloc, &failing)?;
    put(alloc, &mut keeper, puts_of(alloc, rows)?)?;
    Ok(keeper)
}

// The numbers of the calls behind the one that puts the rows.
fn one_later(alloc: Global, calls: &[u64]) -> Result<Vec<u64>, AllocError> {
    let mut later = Vec::new(alloc);
    for call in calls {
        later.push(call.saturating_add(1))?;
    }
    Ok(later)
}

// A batch that puts the rows.
fn puts_of(alloc: Global, rows: &[Row]) -> Result<Batch, AllocError> {
    let mut puts = Items::new(alloc);
    for row in rows {
        puts.push(row.copy(alloc)?)?;
    }
    Ok(Batch {
        puts,
        deletes: Items::new(alloc),
    })
}

// Commits a batch that isn't to fail.
fn put(alloc: Global, keeper: &mut MemoryKeeper, batch: Batch) -> Result<(), AllocError>
    ensures { OnOk result (keeper.new.refused ≡ []) }
{
    match keeper.commit(alloc, batch) {
        Ok(()) => Ok(()),
        Err(_) => Err(AllocError),
    }
}
