//! Rows of a store, the keepers that hold them, and what sessions leave.

ghost use Rattle.std.specs.Prelude.{◌≡◌, [], Some, IfOk, OnOk};
ghost use Rattle.std.specs.FinMap.{empty};
ghost use Rattle.farm_keeper.specs.Keeping.{MayRemain};
ghost use Rattle.session.specs.Opening.{MayOpen};
ghost use Rattle.session.specs.Words.{WordForm, form_of};

use farm_keeper::{Batch, Keeper, MemoryKeeper, Row};
use farm_types::{Items, Text};
use session::{Form, form};
use std::alloc::{AllocError, Global};

/// What a session left: the rows, and the batches that were refused since the last one that was taken.
#[derive(Drop)]
pub struct Left {
    pub rows: Items<Row>,
    pub refused: Vec<Batch>,
}

impl Left {
    /// No rows.
    pub fn none(alloc: Global) -> Left {
        Left {
            rows: Items::new(alloc),
            refused: Vec::new(alloc),
        }
    }

    /// What a keeper has, of which at most so many calls fail.
    pub fn of(
        alloc: Global,
        keeper: &mut MemoryKeeper,
        failing: usize,
    ) -> Result<Left, AllocError> {
        let mut refused = Vec::new(alloc);
        for batch in keeper.refused() {
            refused.push(batch.copy(alloc)?)?;
        }
        Ok(Left {
            rows: rows_in(alloc, keeper, failing)?,
            refused,
        })
    }
}

/// A keeper of the rows for a session of the words. Its calls fail by their numbers from 1, but that its first one, which puts the rows,
/// doesn't count. For the demonstration and for a load it has no rows.
pub fn keeper_of(
    alloc: Global,
    words: &[Text],
    rows: &[Row],
    failing: &[u64],
) -> Result<MemoryKeeper, AllocError>
    ensures { IfOk result (λ keeper. (form : WordForm) → form_of words.now ≡ Some form
        → MayOpen form (λ held. held ≡ keeper.rows) (MayRemain keeper.rows keeper.refused)) }
{
    let failing = one_later(alloc, failing)?;
    match form(words) {
        Some(Form::Script { .. }) => filled(alloc, rows, &failing),
        _ => fresh(alloc, &failing),
    }
}

/// Whether the words are those of a session over a store of rows.
pub fn is_script(words: &[Text]) -> bool {
    matches!(form(words), Some(Form::Script { .. }))
}

// A keeper of the rows, which its first call put.
fn filled(alloc: Global, rows: &[Row], failing: &[u64]) -> Result<MemoryKeeper, AllocError>
    ensures { IfOk result (λ keeper. keeper.refused ≡ []) }
{
    let mut keeper = MemoryKeeper::make(alloc, failing)?;
    put(alloc, &mut keeper, puts_of(alloc, rows)?)?;
    Ok(keeper)
}

// A keeper of no rows, of which one call was made.
fn fresh(alloc: Global, failing: &[u64]) -> Result<MemoryKeeper, AllocError>
    ensures rows { IfOk result (λ keeper. keeper.rows ≡ empty) }
    ensures refused { IfOk result (λ keeper. keeper.refused ≡ []) }
{
    let mut keeper = MemoryKeeper::make(alloc, failing)?;
    match keeper.load(alloc) {
        Ok(_) => Ok(keeper),
        Err(_) => Err(AllocError),
    }
}

// The numbers of the calls behind the one that puts the rows.
fn one_later(alloc: Global, calls: &[u64]) -> Result<Vec<u64>, AllocError> {
    let mut later = Vec::new(alloc);
    for call in calls {
        later.push(call.saturating_add(1))?;
    }
    Ok(later)
}

/// The rows with a batch, by kind and then by id.
pub fn rows_with(alloc: Global, rows: &[Row], batch: &Batch) -> Result<Items<Row>, AllocError> {
    let mut keeper = MemoryKeeper::make(alloc, &[])?;
    put(alloc, &mut keeper, puts_of(alloc, rows)?)?;
    put(alloc, &mut keeper, batch.copy(alloc)?)?;
    rows_in(alloc, &mut keeper, 0)
}

// A batch that puts the rows.
fn puts_of(alloc: Global, rows: &[Row]) -> Result<Batch, AllocError> {
    let mut puts = Items::new(alloc);
    for row in rows {
        puts.push(row.copy(alloc)?)?;
    }
    Ok(Batch {
        puts,
        deletes: Items::new(alloc),
    })
}

// Commits a batch that isn't to fail.
fn put(alloc: Global, keeper: &mut MemoryKeeper, batch: Batch) -> Result<(), AllocError>
    ensures { OnOk result (keeper.new.refused ≡ []) }
{
    match keeper.commit(alloc, batch) {
        Ok(()) => Ok(()),
        Err(_) => Err(AllocError),
    }
}

// The rows of a keeper, of which at most so many loads fail.
fn rows_in(
    alloc: Global,
    keeper: &mut MemoryKeeper,
    failing: usize,
) -> Result<Items<Row>, AllocError> {
    for _ in 0..failing {
        if let Ok(rows) = keeper.load(alloc) {
            return Ok(rows);
        }
    }
    match keeper.load(alloc) {
        Ok(rows) => Ok(rows),
        Err(_) => Err(AllocError),
    }
}
