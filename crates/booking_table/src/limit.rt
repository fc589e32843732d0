//! A place in a limit: taken, and given back.

ghost use Rattle.std.specs.Prelude.{◌≡◌, ◌<◌, ℕ, [], None, IfErr, MatchResult};
ghost use Rattle.booking_rule.specs.Alone.{IsAlone};
ghost use Rattle.booking_core.specs.Machine.{CanTake, MayGive};
ghost use Rattle.booking_table.specs.Seats.{view, IsSeatOf, IsSameSeat};
ghost use Rattle.booking_table.specs.Holds.{HasBurst, with_place, without_place};
ghost use Rattle.booking_table.specs.Alone.{ShowsNoPlace};
ghost use Rattle.booking_table.specs.Calls.{IsLimitTaken, IsLimitFull, place_given};

use crate::holds::BurstHold;
use crate::table::{Seat, Table};
use farm_types::LimitNo;
use frame_words::LimitWord;

/// There was no place: how many frames ran in the limit, and how many may.
#[derive(Clone, Copy, Debug, PartialEq, Eq)]
pub struct LimitFull {
    pub running: u32,
    pub most: u32,
}

impl Table {
    /// Adds 1 to the frames that run in a limit, and takes it off again where these are more than may run then. The cores, for
    /// which the place is, have none yet.
    pub fn take_limit(
        &self,
        seat: &mut Seat,
        burst: BurstHold,
        limit: LimitNo,
    ) -> Result<BurstHold, (BurstHold, LimitFull)>
        requires table { IsSeatOf self.now seat.old }
        requires free { CanTake (view seat.old) }
        requires within { limit < 255 }
        requires none { burst.limit ≡ None }
        ensures same { IsSameSeat seat.old seat.new }
        ensures answer { MatchResult result
            (λ b. (b ≡ with_place burst limit) × IsLimitTaken (view seat.old) limit (view seat.new))
            (λ e. (e.0 ≡ burst) × IsLimitFull (view seat.old) limit e.1 (view seat.new)) }
        ensures alone { IsAlone [] (view seat.old) → IfErr result (λ e. ShowsNoPlace (view seat.old) limit e.1) }
    {
        let found = self.add_running(seat, limit);
        let LimitWord { most, running } = LimitWord::unpack(found);
        if running + 1 <= most {
            let BurstHold {
                sub,
                cores,
                limit: _,
            } = burst;
            return Ok(BurstHold {
                sub,
                cores,
                limit: Some(limit),
            });
        }
        self.retract_running(seat, limit);
        Err((burst, LimitFull { running, most }))
    }

    /// Gives the place in its limit back, where it has one.
    pub fn give_limit(&self, seat: &mut Seat, burst: BurstHold) -> BurstHold
        requires table { IsSeatOf self.now seat.old }
        requires may { MayGive (view seat.old) }
        requires held { HasBurst (view seat.old) burst }
        ensures same { IsSameSeat seat.old seat.new }
        ensures hold { result ≡ without_place burst }
        ensures given { (place : ℕ) × (view seat.new ≡ place_given (view seat.old) burst.limit place) }
    {
        let BurstHold { sub, cores, limit } = burst;
        if let Some(limit) = limit {
            self.give_running(seat, limit);
        }
        BurstHold {
            sub,
            cores,
            limit: None,
        }
    }
}
