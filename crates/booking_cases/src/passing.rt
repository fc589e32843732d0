//! Passes of the recorder.

ghost use Rattle.std.specs.Prelude.{◌≡◌};

use crate::said::Said;
use booking_recorder::{Naming, Pass, Recorder};
use booking_table::Table;
use farm_keeper::MemoryKeeper;
use std::mem;

/// A pass of the recorder, in that place.
pub(crate) fn pass_on<N: Naming>(
    table: &Table,
    recorder: &mut Recorder<MemoryKeeper, N>,
    pass: &mut Option<Pass<N>>,
) -> Said
    requires table { table.now ≡ N.table }
{
    match recorder.pass(table) {
        Ok(made) => {
            drop(mem::replace(pass, Some(made)));
            Said::Done
        }
        Err(_) => Said::SeatsFull,
    }
}

/// The pass catches up with the recorder.
pub(crate) fn catch_up<N: Naming>(
    table: &Table,
    recorder: &mut Recorder<MemoryKeeper, N>,
    pass: &mut Option<Pass<N>>,
) -> Said
    requires table { table.now ≡ N.table }
{
    match pass {
        None => Said::NotNow,
        Some(pass) => {
            recorder.catch_up(table, pass);
            Said::Done
        }
    }
}

/// The second pass has then seen what the first one has.
pub(crate) fn meet<N: Naming>(
    table: &Table,
    from: &mut Option<Pass<N>>,
    into: &mut Option<Pass<N>>,
) -> Said
    requires table { table.now ≡ N.table }
{
    match (from, into) {
        (Some(from), Some(into)) => {
            from.meet(table, into);
            Said::Done
        }
        _ => Said::NotNow,
    }
}

/// What a pass has seen.
pub(crate) fn seen_by<N: Naming>(pass: &Option<Pass<N>>) -> Said {
    match pass {
        None => Said::NotNow,
        Some(pass) => Said::Passed {
            seen: pass.seen(),
            faults: pass.faults(),
        },
    }
}
