//! The farm that a store keeps.

ghost use Rattle.std.specs.Prelude.{◌≡◌, [], List};
ghost use Rattle.booking_table.specs.Seats.{IsSeatOf, view};
ghost use Rattle.farm_keeper.specs.Keeping.{Continues, HasKept, Keeps};
ghost use Rattle.farm_keeper.specs.Rows.{Rows};
ghost use Rattle.farm_load.specs.recording_turns.specs.Resting.{IsUnplaced};
ghost use Rattle.farm_rows.specs.Rows.{HasRowsIn};
ghost use Rattle.recovery.specs.Migration.{HasRows};
ghost use Rattle.recovery.specs.Recovered.{recovered};
ghost use Rattle.session.specs.Opening.{BeginsIn, HasBegun, HasRecovered, IsLoaded, IsLoadedFrom, Loads, MayOpen, MigratesFrom, Opens};
ghost use Rattle.session.specs.Opening.{is_store_failure, of_keeper, of_recovery};
ghost use Rattle.session.specs.Words.{IsScript, word_form};

use crate::opening::{OpenFault, Opening, begin};
use crate::words::Form;
use booking_table::{Seat, Table};
use farm_keeper::{Keeper, KeeperFault, Row};
use farm_load::booking_recorder::Naming;
use farm_load::farm_core::Farm;
use farm_rows::ROW_FORMAT;
use recovery::{RecoverFault, Recovered, migrate, recover, rows_recovered_are_the_farms};
use std::alloc::Global;

/// Opens the farm that the keeper's rows say.
pub(crate) fn open_stored<K: Keeper, N: Naming>(
    alloc: Global,
    form: Form<'_>,
    keeper: K,
    table: &Table,
    seat: Seat,
    moment: u64,
) -> Opening<K, N>
    requires script { IsScript (word_form form) }
    requires kept { K.tells keeper → MayOpen (word_form form) (K.holds keeper) (K.left keeper) }
    requires table { table.now ≡ N.table }
    requires seat { IsSeatOf table.now seat }
    requires unplaced { IsUnplaced (view seat) }
    ensures { Opens K.tells K.holds K.left K.faults (word_form form.entry) moment keeper result }
{
    let mut keeper = keeper;
    match load_stored(alloc, &mut keeper) {
        Ok(recovered) => {
            open_loaded(
                alloc,
                form,
                keeper,
                recovered.farm,
                recovered.format,
                table,
                seat,
                moment,
            )
        }
        Err(fault) => Opening::Failed { keeper, fault },
    }
}

/// Loads the farm that the keeper's rows say, and their format. No commit of the keeper was refused since the last one that it took.
pub fn load_stored<K: Keeper>(alloc: Global, keeper: &mut K) -> Result<Recovered, OpenFault>
    requires { K.tells keeper.old → (rows : Rows) × HasKept (K.holds keeper.old) (K.left keeper.old) rows [] }
    ensures { Loads K.tells K.holds K.left K.faults keeper.old result keeper.new }
{
    rows_recovered_are_the_farms();
    load_farm(alloc, keeper)
}

/// Opens a farm that was loaded, on a new table at a moment (seconds): makes rows of an older format those in which rows are written, places the farm, and
/// records that it was opened.
pub fn open_loaded<K: Keeper, N: Naming>(
    alloc: Global,
    form: Form<'_>,
    keeper: K,
    farm: Farm,
    format: u64,
    table: &Table,
    seat: Seat,
    moment: u64,
) -> Opening<K, N>
    requires script { IsScript (word_form form) }
    requires rows { HasRowsIn format farm }
    requires kept { K.tells keeper → HasRows (K.holds keeper) (K.left keeper) format farm }
    requires table { table.now ≡ N.table }
    requires seat { IsSeatOf table.now seat }
    requires unplaced { IsUnplaced (view seat) }
    ensures opens { (given : K) → IsLoadedFrom K.tells K.holds K.left K.faults given farm format keeper
        → Opens K.tells K.holds K.left K.faults (word_form form.entry) moment given result }
    ensures begun { HasBegun (word_form form.entry) moment farm result }
{
    open_recovered(alloc, form, keeper, farm, format, table, seat, moment)
}

// Opens the farm of the keeper's rows, which are of that format. A store of an older format is migrated first.
fn open_recovered<K: Keeper, N: Naming>(
    alloc: Global,
    form: Form<'_>,
    keeper: K,
    farm: Farm,
    format: u64,
    table: &Table,
    seat: Seat,
    moment: u64,
) -> Opening<K, N>
    requires script { IsScript (word_form form) }
    requires rows { HasRowsIn format farm }
    requires kept { K.tells keeper → HasRows (K.holds keeper) (K.left keeper) format farm }
    requires table { table.now ≡ N.table }
    requires seat { IsSeatOf table.now seat }
    requires unplaced { IsUnplaced (view seat) }
    ensures { BeginsIn format K.tells K.holds K.left K.faults (word_form form.entry) moment farm keeper result }
{
    let mut keeper = keeper;
    match migrated(alloc, &mut keeper, &farm, format) {
        Ok(()) => begin(alloc, form, farm, keeper, table, seat, moment),
        Err(fault) => Opening::Failed { keeper, fault },
    }
}

// Makes rows of format 1 those of the format in which rows are written.
fn migrated<K: Keeper>(
    alloc: Global,
    keeper: &mut K,
    farm: &Farm,
    format: u64,
) -> Result<(), OpenFault>
    requires { HasRowsIn format farm.now }
    ensures rows { MigratesFrom format (K.holds keeper.old) (K.left keeper.old) (K.holds keeper.new) (K.left keeper.new) farm.now result }
    ensures keeper { Continues K.tells K.faults keeper.old keeper.new (is_store_failure result) }
{
    if format == ROW_FORMAT {
        return Ok(());
    }
    match migrate(alloc, keeper, farm) {
        Ok(()) => Ok(()),
        Err(fault) => Err(of_keeper(fault)),
    }
}

// The farm that the keeper's rows say, and their format.
fn load_farm<K: Keeper>(alloc: Global, keeper: &mut K) -> Result<Recovered, OpenFault>
    ensures farm { IsLoaded (K.tells keeper.new) (K.holds keeper.old) result }
    ensures keeper { Continues K.tells K.faults keeper.old keeper.new (is_store_failure result) }
    ensures kept { Keeps (K.holds keeper.old) (K.holds keeper.new) }
    ensures left { Keeps (K.left keeper.new) (K.left keeper.old) }
{
    match keeper.load(alloc) {
        Ok(rows) => recover_farm(alloc, rows.as_slice()),
        Err(fault) => Err(of_keeper(fault)),
    }
}

// The farm of these rows, and their format.
fn recover_farm(alloc: Global, rows: &[Row]) -> Result<Recovered, OpenFault>
    ensures { HasRecovered (recovered rows.now) result }
{
    match recover(alloc, rows) {
        Ok(recovered) => Ok(recovered),
        Err(fault) => Err(of_recovery(fault)),
    }
}

fn of_keeper(fault: KeeperFault) -> OpenFault
    ensures { result ≡ of_keeper fault }
{
    match fault {
        KeeperFault::Failed => OpenFault::Store,
        KeeperFault::NoMemory => OpenFault::NoMemory,
    }
}

fn of_recovery(fault: RecoverFault) -> OpenFault
    ensures { result ≡ of_recovery fault }
{
    match fault {
        RecoverFault::NoMemory => OpenFault::NoMemory,
        fault => OpenFault::Bad { fault },
    }
}
