//! The farm that a keeper's rows say.

ghost use Rattle.std.specs.Prelude.{◌≡◌, [], Ok, IfOk};
ghost use Rattle.farm_rows.specs.declared.head_row.TheConstants.{ROW_FORMAT};
ghost use Rattle.recovery.specs.Recovered.{recovered};
ghost use Rattle.recorder_start.specs.Keeping.{IsKeptBy};

use booking_recorder::farm_core::Farm;
use farm_keeper::{Keeper, KeeperFault, MemoryKeeper, Row};
use farm_rows::ROW_FORMAT;
use recovery::{RecoverFault, Recovered, recover, rows_recovered_are_the_farms};
use std::alloc::{AllocError, Global};

/// Why there is no farm: the store failed, its rows are none, or memory ran out.
#[derive(Clone, Copy, Debug, PartialEq, Eq)]
pub enum OpenFault {
    Store,
    BadRows,
    NoMemory,
}

impl From<AllocError> for OpenFault {
    fn from(_error: AllocError) -> OpenFault {
        OpenFault::NoMemory
    }
}

/// The farm that the rows of a keeper say, which refused no batch. Rows of an older format than that in which rows are written are none.
pub fn load_farm(alloc: Global, keeper: &mut MemoryKeeper) -> Result<Farm, OpenFault>
    requires { keeper.old.refused ≡ [] }
    ensures { IfOk result (λ farm. IsKeptBy farm keeper.new) }
{
    rows_recovered_are_the_farms();
    match keeper.load(alloc) {
        Ok(rows) => farm_of(alloc, rows.as_slice()),
        Err(KeeperFault::Failed) => Err(OpenFault::Store),
        Err(KeeperFault::NoMemory) => Err(OpenFault::NoMemory),
    }
}

// The farm of these rows, where they are of the format in which rows are written.
fn farm_of(alloc: Global, rows: &[Row]) -> Result<Farm, OpenFault>
    ensures { IfOk result (λ farm. recovered rows.now ≡ Ok (record { farm = farm; format = ROW_FORMAT })) }
{
    match recover(alloc, rows) {
        Ok(recovered) => current(recovered),
        Err(RecoverFault::NoMemory) => Err(OpenFault::NoMemory),
        Err(_) => Err(OpenFault::BadRows),
    }
}

// The farm, where its rows are of that format.
fn current(recovered: Recovered) -> Result<Farm, OpenFault>
    ensures { IfOk result (λ farm. recovered ≡ record { farm = farm; format = ROW_FORMAT }) }
{
    let Recovered { farm, format } = recovered;
    if format != ROW_FORMAT {
        return Err(OpenFault::BadRows);
    }
    Ok(farm)
}
