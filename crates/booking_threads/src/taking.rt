//! Many takes by one seat.

ghost use Rattle.std.specs.Prelude.{◌≡◌, ◌+◌, ◌<◌};
ghost use Rattle.farm_types.specs.Limits.{IsBetween};
ghost use Rattle.farm_types.specs.declared.limits.TheConstants.{LEAST_CORES, MOST_CORES};
ghost use Rattle.booking_core.specs.Machine.{CanTake, MayGive};
ghost use Rattle.booking_table.specs.Seats.{view, IsSeatOf};
ghost use Rattle.booking_threads.specs.Free.{StaysFree};

use booking_table::{Seat, Table};
use farm_types::{Cores, SubNo};

/// How often cores were taken, and how often they didn't fit.
#[derive(Clone, Copy, Debug, PartialEq, Eq)]
pub(crate) struct Takes {
    pub(crate) granted: u32,
    pub(crate) refused: u32,
}

/// Takes the cores so many times, and gives them back each time.
pub(crate) fn take_often(
    table: &Table,
    seat: &mut Seat,
    sub: SubNo,
    cores: Cores,
    times: u32,
) -> Takes
    requires table { IsSeatOf table.now seat.old }
    requires free { CanTake (view seat.old) × MayGive (view seat.old) }
    requires amounts { (sub < 1024) × IsBetween LEAST_CORES MOST_CORES cores }
    ensures table { IsSeatOf table.now seat.new }
    ensures free { StaysFree (view seat.old) (view seat.new) }
    ensures counted { result.granted + result.refused ≡ times }
{
    let mut granted = 0;
    let mut refused = 0;
    for _time in 0..times {
        if take_once(table, seat, sub, cores) {
            granted += 1;
        } else {
            refused += 1;
        }
    }
    Takes { granted, refused }
}

// Takes the cores, and gives them back. Whether they fitted.
fn take_once(table: &Table, seat: &mut Seat, sub: SubNo, cores: Cores) -> bool
    requires table { IsSeatOf table.now seat.old }
    requires free { CanTake (view seat.old) × MayGive (view seat.old) }
    requires amounts { (sub < 1024) × IsBetween LEAST_CORES MOST_CORES cores }
    ensures table { IsSeatOf table.now seat.new }
    ensures free { StaysFree (view seat.old) (view seat.new) }
{
    match table.take_burst(seat, sub, cores) {
        Ok(burst) => {
            table.give_burst(seat, burst);
            true
        }
        Err(_) => false,
    }
}
