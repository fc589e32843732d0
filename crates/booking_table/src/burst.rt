//! Cores of a subscription's burst: taken, and given back.

ghost use Rattle.std.specs.Prelude.{◌≡◌, ◌<◌, ℕ, [], IfErr, MatchResult};
ghost use Rattle.farm_types.specs.Limits.{IsBetween};
ghost use Rattle.farm_types.specs.declared.limits.TheConstants.{LEAST_CORES, MOST_CORES};
ghost use Rattle.booking_rule.specs.Alone.{IsAlone};
ghost use Rattle.booking_core.specs.Kinds.{gave_burst};
ghost use Rattle.booking_core.specs.Machine.{CanTake, MayGive};
ghost use Rattle.booking_table.specs.Seats.{view, IsSeatOf, IsSameSeat};
ghost use Rattle.booking_table.specs.Holds.{burst_hold, HasBurst};
ghost use Rattle.booking_table.specs.Alone.{ShowsFull};
ghost use Rattle.booking_table.specs.Calls.{IsBurstTaken, IsBurstFull, place_given};

use crate::holds::BurstHold;
use crate::table::{Seat, Table};
use farm_types::{Cores, SubNo};
use frame_words::SubWord;

/// The cores didn't fit: what was booked of the subscription, and its burst.
#[derive(Clone, Copy, Debug, PartialEq, Eq)]
pub struct BurstFull {
    pub booked: Cores,
    pub burst: Cores,
}

impl Table {
    /// Adds cores to what is booked of a subscription, and takes them off again where they are more than its burst then.
    pub fn take_burst(
        &self,
        seat: &mut Seat,
        sub: SubNo,
        cores: Cores,
    ) -> Result<BurstHold, BurstFull>
        requires table { IsSeatOf self.now seat.old }
        requires free { CanTake (view seat.old) }
        requires amounts { (sub < 1024) × IsBetween LEAST_CORES MOST_CORES cores }
        ensures same { IsSameSeat seat.old seat.new }
        ensures answer { MatchResult result
            (λ b. (b ≡ burst_hold sub cores) × IsBurstTaken (view seat.old) sub cores (view seat.new))
            (λ full. IsBurstFull (view seat.old) sub cores full (view seat.new)) }
        ensures alone { IsAlone [] (view seat.old) → IfErr result (λ full. ShowsFull (view seat.old) sub full) }
    {
        let found = self.add_booked(seat, sub, cores);
        let SubWord { burst, booked } = SubWord::unpack(found);
        if booked.0 + cores.0 <= burst.0 {
            return Ok(BurstHold {
                sub,
                cores,
                limit: None,
            });
        }
        self.retract_booked(seat, sub, cores);
        Err(BurstFull { booked, burst })
    }

    /// Gives the place in its limit back, where it has one, and then its cores.
    pub fn give_burst(&self, seat: &mut Seat, burst: BurstHold)
        requires table { IsSeatOf self.now seat.old }
        requires may { MayGive (view seat.old) }
        requires held { HasBurst (view seat.old) burst }
        ensures same { IsSameSeat seat.old seat.new }
        ensures given { (place found : ℕ) × (view seat.new ≡ gave_burst (place_given (view seat.old) burst.limit place) burst.sub burst.cores found) }
    {
        let BurstHold {
            sub,
            cores,
            limit: _,
        } = self.give_limit(seat, burst);
        self.give_booked(seat, sub, cores);
    }
}
