//! A recorder over a table that was just made.

ghost use Rattle.std.specs.Prelude.{◌≡◌};
ghost use Rattle.booking_rule.specs.Kept.{first_view};
ghost use Rattle.booking_table.specs.Seats.{view, IsSeatOf};
ghost use Rattle.recorder_start.specs.Keeping.{IsKeptBy};

use booking_recorder::farm_core::Farm;
use booking_recorder::{Naming, Recorder};
use booking_table::{Seat, Table};
use farm_keeper::MemoryKeeper;
use std::alloc::Global;

/// A recorder of the farm and of the keeper of its rows, over a table and a seat that were just made. The table's words come to show the farm.
pub fn recorder_on<N: Naming>(
    alloc: Global,
    farm: Farm,
    keeper: MemoryKeeper,
    table: &Table,
    seat: Seat,
) -> Recorder<MemoryKeeper, N>
    requires table { table.now ≡ N.table }
    requires seat { IsSeatOf table.now seat }
    requires first { view seat ≡ first_view }
    requires kept { IsKeptBy farm keeper }
    ensures farm { result.farm ≡ farm }
    ensures keeper { result.keeper ≡ keeper }
{
    Recorder::make(alloc, farm, keeper, table, seat)
}
