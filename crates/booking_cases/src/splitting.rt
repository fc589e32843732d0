//! Seats that are split off the recorder's.

ghost use Rattle.std.specs.Prelude.{◌≡◌, IfOk};
ghost use Rattle.booking_rule.specs.Kept.{farm_in};
ghost use Rattle.booking_table.specs.Seats.{view, IsSeatOf};
ghost use Rattle.booking_cases.specs.Working.{IsFree};

use booking_recorder::{Naming, PassRefusal, Recorder};
use booking_table::{Seat, Table};
use farm_keeper::MemoryKeeper;

/// A seat that has seen the whole journal, and holds nothing.
pub(crate) fn split_off<N: Naming>(
    table: &Table,
    recorder: &mut Recorder<MemoryKeeper, N>,
) -> Result<Seat, PassRefusal>
    requires table { table.now ≡ N.table }
    ensures seat { IfOk result (λ seat. IsSeatOf N.table seat) }
    ensures free { IfOk result (λ seat. IsFree (view seat)) }
    ensures farm { IfOk result (λ seat. farm_in (view seat) ≡ recorder.old.farm) }
{
    recorder.rests();
    recorder.split(table)
}
