//! The rows of a store of format 1, made those of the format in which rows are written.

ghost use Rattle.std.specs.Prelude.{◌≡◌, filter, map, IfOk};
ghost use Rattle.farm_keeper.specs.Faults.{is_failed};
ghost use Rattle.farm_keeper.specs.Keeping.{Continues};
ghost use Rattle.farm_rows.specs.Rows.{HasRowsIn};
ghost use Rattle.recovery.specs.Migration.{Migrates, TellsMigration};
ghost use Rattle.store_law.specs.Stored.{is_migrated, migration, stored_row};

use farm_core::Farm;
use farm_keeper::{Batch, Keeper, KeeperFault, Row};
use farm_rows::FarmRow;
use farm_types::Items;
use row_codec::encode;
use std::alloc::{AllocError, Global};
use store_law::migrations_make_the_rows;

/// Makes the farm's rows of format 1 those of the format in which rows are written, by one commit of exactly the rows in which these differ: the farm's
/// own, and each layer's. Where the keeper tells the truth, it holds the farm's rows of format 1, with no commit refused since its last Ok. At an `Err`
/// it holds them still, and a stop leaves them, or those that they were to become; `Failed` comes only from the keeper, whose count of faults then rises.
pub fn migrate<K: Keeper>(alloc: Global, keeper: &mut K, farm: &Farm) -> Result<(), KeeperFault>
    requires old { HasRowsIn 1 farm.now }
    ensures rows { Migrates (K.holds keeper.old) (K.left keeper.old) (K.holds keeper.new) (K.left keeper.new) farm.now result }
    ensures keeper { Continues K.tells K.faults keeper.old keeper.new (is_failed result) }
    ensures told { TellsMigration K.commits farm.now result keeper.old keeper.new }
{
    migrations_make_the_rows();
    farm.kept();
    let batch = batch_for(alloc, farm)?;
    keeper.commit(alloc, batch)
}

// The rows that differ between the formats, as they are written.
fn batch_for(alloc: Global, farm: &Farm) -> Result<Batch, AllocError>
    ensures { IfOk result (λ batch. batch ≡ migration farm.now) }
{
    let rows = farm.rows(alloc)?;
    let puts = migrated_rows(alloc, rows.as_slice())?;
    Ok(Batch {
        puts,
        deletes: Items::new(alloc),
    })
}

// Those among these rows.
fn migrated_rows(alloc: Global, rows: &[FarmRow]) -> Result<Items<Row>, AllocError>
    ensures { IfOk result (λ puts. puts ≡ map stored_row (filter is_migrated rows.now)) }
{
    let mut puts = Items::new(alloc);
    let mut room = Vec::new(alloc);
    for row in rows {
        if !is_migrated(row) {
            continue;
        }
        puts.push(stored_row(alloc, row, &mut room)?)?;
    }
    Ok(puts)
}

// Whether the row has another spelling in format 1: the farm's own has the format, and a layer's has no limit.
fn is_migrated(row: &FarmRow) -> bool
    ensures { result ≡ is_migrated row.now }
{
    match row {
        FarmRow::Head(_) => true,
        FarmRow::Layer(_) => true,
        _ => false,
    }
}

// The row's bytes under its kind and its id.
fn stored_row(alloc: Global, row: &FarmRow, room: &mut Vec<u8>) -> Result<Row, AllocError>
    ensures { IfOk result (λ stored. stored ≡ stored_row row.now) }
{
    Ok(Row {
        kind: row.kind(),
        id: row.id(),
        bytes: encode(alloc, row, room)?,
    })
}
