//! A claim by the recorder's own seat, while no other seat was split off: the steps of a dispatcher, none of which finds what the farm doesn't say.

ghost use Rattle.std.specs.Prelude.{◌≡◌, ◌↔◌, ◌<◌, ◌∷◌, [], Some, IsTrue, MatchResult, true};
ghost use Rattle.farm_types.specs.declared.limits.TheConstants.{LAST_VERSION};
ghost use Rattle.farm_types.specs.Booking.{suits};
ghost use Rattle.frame_words.specs.Bits.{frame_bits};
ghost use Rattle.booking_rule.specs.Kept.{farm_in};
ghost use Rattle.booking_rule.specs.Looks.{HasLook};
ghost use Rattle.booking_rule.specs.Views.{room_of, take_of};
ghost use Rattle.booking_table.specs.Calls.{look_by};
ghost use Rattle.booking_table.specs.Holds.{burst_hold};
ghost use Rattle.booking_table.specs.Seats.{view, IsSeatOf, IsSameSeat};
ghost use Rattle.recording_turns.specs.Resting.{IsAtRest, split_in};
ghost use Rattle.booking_recorder.specs.Alone.{HasBurstFor, HasClaimed, HasCores, HasHoldFor, HasLooked, HoldsAlone, IsLostAt, IsWanted, burst_for, hold_for, places_in};

use crate::book_result::BookResult;
use booking_table::{BurstHold, Claim, Hold, Seat, Seen, Table};
use farm_core::Farm;
use farm_types::{HostNo, LimitNo, Slot, SubNo, Version};
use frame_words::{FrameWord, WAITING};

/// Claims the slot's frame for the host, with all that it needs there; or tells which step was lost, and gives back all that was held.
pub(crate) fn claim_alone(
    table: &Table,
    seat: &mut Seat,
    farm: &Farm,
    slot: Slot,
    version: Version,
    sub: SubNo,
    host: HostNo,
) -> Result<Claim, BookResult>
    requires table { IsSeatOf table.now seat.old }
    requires rests { IsAtRest (view seat.old) }
    requires alone { split_in (view seat.old).desk ≡ 0 }
    requires leads { farm.now ≡ farm_in (view seat.old) }
    requires version { version < LAST_VERSION }
    requires suits { suits farm.now slot version host sub ≡ true }
    ensures same { IsSameSeat seat.old seat.new }
    ensures answer { MatchResult result
        (λ claim. HasClaimed slot host (view seat.old) claim (view seat.new))
        (λ lost. IsLostAt farm.now slot host (view seat.old) lost (view seat.new)) }
{
    let seen = match look_for(table, seat, farm, slot, version, sub, host) {
        Ok(seen) => seen,
        Err(lost) => return Err(lost),
    };
    let burst = match hold_cores(table, seat, farm, &seen, sub, host) {
        Ok(burst) => burst,
        Err(lost) => return Err(lost),
    };
    let burst = match hold_place(table, seat, farm, &seen, burst, sub, host) {
        Ok(burst) => burst,
        Err(lost) => return Err(lost),
    };
    let hold = match hold_room(table, seat, farm, &seen, burst, sub, host) {
        Ok(hold) => hold,
        Err(lost) => return Err(lost),
    };
    claim_for(table, seat, farm, seen, hold, sub, host)
}

// Looks at the slot, whose frame is to wait at that version.
fn look_for(
    table: &Table,
    seat: &mut Seat,
    farm: &Farm,
    slot: Slot,
    version: Version,
    sub: SubNo,
    host: HostNo,
) -> Result<Seen, BookResult>
    requires table { IsSeatOf table.now seat.old }
    requires rests { IsAtRest (view seat.old) }
    requires alone { split_in (view seat.old).desk ≡ 0 }
    requires leads { farm.now ≡ farm_in (view seat.old) }
    requires version { version < LAST_VERSION }
    requires suits { suits farm.now slot version host sub ≡ true }
    ensures same { IsSameSeat seat.old seat.new }
    ensures answer { MatchResult result
        (λ seen. HasLooked farm.now slot sub host (view seat.old) seen (view seat.new))
        (λ lost. IsLostAt farm.now slot host (view seat.old) lost (view seat.new)) }
{
    farm.kept();
    let _sub = sub;
    let _host = host;
    let seen = table.look(seat, slot);
    if is_waiting_at(&seen, version) {
        return Ok(seen);
    }
    Err(BookResult::Taken {
        found: found_word(&seen),
    })
}

// Whether the frame was seen waiting at that version.
fn is_waiting_at(seen: &Seen, version: Version) -> bool
    ensures { IsTrue result ↔ ((seen.now.phase ≡ 1) × (seen.now.version ≡ version)) }
{
    seen.phase == WAITING && seen.version == version
}

// The word of a slot that was seen, with host 0.
fn found_word(seen: &Seen) -> u64
    requires fits { (seen.now.phase < 16) × (seen.now.version < 16777216) × (seen.now.cores < 1048576) }
    ensures word { result ≡ frame_bits (record { phase = seen.now.phase; version = seen.now.version; host = 0; cores = seen.now.cores }) }
{
    let word = FrameWord {
        phase: seen.phase,
        version: seen.version,
        host: HostNo(0),
        cores: seen.cores,
    };
    word.pack()
}

// Takes the layer's cores of the subscription.
fn hold_cores(
    table: &Table,
    seat: &mut Seat,
    farm: &Farm,
    seen: &Seen,
    sub: SubNo,
    host: HostNo,
) -> Result<BurstHold, BookResult>
    requires table { IsSeatOf table.now seat.old }
    requires free { HoldsAlone [] [] [] [] (view seat.old) }
    requires leads { farm.now ≡ farm_in (view seat.old) }
    requires wanted { IsWanted farm.now seen.now.slot sub host seen.now }
    ensures same { IsSameSeat seat.old seat.new }
    ensures answer { MatchResult result
        (λ burst. HasCores sub (view seat.old) seen.now burst (view seat.new))
        (λ lost. IsLostAt farm.now seen.now.slot host (view seat.old) lost (view seat.new)) }
{
    let _host = host;
    let _farm = farm;
    match table.take_burst(seat, sub, seen.cores) {
        Ok(burst) => Ok(burst),
        Err(why) => Err(BookResult::Burst { why }),
    }
}

// Takes a place in the layer's limit, where it has one; else the cores go back.
fn hold_place(
    table: &Table,
    seat: &mut Seat,
    farm: &Farm,
    seen: &Seen,
    burst: BurstHold,
    sub: SubNo,
    host: HostNo,
) -> Result<BurstHold, BookResult>
    requires table { IsSeatOf table.now seat.old }
    requires held { HoldsAlone (take_of sub seen.now.cores ∷ []) [] [] [] (view seat.old) }
    requires burst { burst ≡ burst_hold sub seen.now.cores }
    requires leads { farm.now ≡ farm_in (view seat.old) }
    requires wanted { IsWanted farm.now seen.now.slot sub host seen.now }
    ensures same { IsSameSeat seat.old seat.new }
    ensures answer { MatchResult result
        (λ burst. HasBurstFor sub (view seat.old) seen.now burst (view seat.new))
        (λ lost. IsLostAt farm.now seen.now.slot host (view seat.old) lost (view seat.new)) }
{
    match seen.limit {
        None => Ok(burst),
        Some(limit) => place_for(table, seat, farm, seen, burst, limit, sub, host),
    }
}

// Takes a place in that limit; else the cores go back.
fn place_for(
    table: &Table,
    seat: &mut Seat,
    farm: &Farm,
    seen: &Seen,
    burst: BurstHold,
    limit: LimitNo,
    sub: SubNo,
    host: HostNo,
) -> Result<BurstHold, BookResult>
    requires table { IsSeatOf table.now seat.old }
    requires held { HoldsAlone (take_of sub seen.now.cores ∷ []) [] [] [] (view seat.old) }
    requires burst { burst ≡ burst_hold sub seen.now.cores }
    requires leads { farm.now ≡ farm_in (view seat.old) }
    requires wanted { IsWanted farm.now seen.now.slot sub host seen.now }
    requires limit { seen.now.limit ≡ Some limit }
    ensures same { IsSameSeat seat.old seat.new }
    ensures answer { MatchResult result
        (λ burst. HasBurstFor sub (view seat.old) seen.now burst (view seat.new))
        (λ lost. IsLostAt farm.now seen.now.slot host (view seat.old) lost (view seat.new)) }
{
    let _seen = seen;
    let _sub = sub;
    let _host = host;
    let _farm = farm;
    match table.take_limit(seat, burst, limit) {
        Ok(burst) => Ok(burst),
        Err((burst, why)) => {
            table.give_burst(seat, burst);
            Err(BookResult::Limit { why })
        }
    }
}

// Takes room on the host; else the place in the limit and the cores go back.
fn hold_room(
    table: &Table,
    seat: &mut Seat,
    farm: &Farm,
    seen: &Seen,
    burst: BurstHold,
    sub: SubNo,
    host: HostNo,
) -> Result<Hold, BookResult>
    requires table { IsSeatOf table.now seat.old }
    requires held { HoldsAlone (take_of sub seen.now.cores ∷ []) (places_in seen.now.limit) [] [] (view seat.old) }
    requires burst { burst ≡ burst_for sub seen.now }
    requires leads { farm.now ≡ farm_in (view seat.old) }
    requires wanted { IsWanted farm.now seen.now.slot sub host seen.now }
    ensures same { IsSameSeat seat.old seat.new }
    ensures answer { MatchResult result
        (λ hold. HasHoldFor sub host (view seat.old) seen.now hold (view seat.new))
        (λ lost. IsLostAt farm.now seen.now.slot host (view seat.old) lost (view seat.new)) }
{
    let _sub = sub;
    let _farm = farm;
    match table.take_host(seat, burst, host, seen.memory) {
        Ok(hold) => Ok(hold),
        Err((burst, _host, why)) => {
            table.give_burst(seat, burst);
            Err(BookResult::Host { why })
        }
    }
}

// Claims the frame that was seen. No other seat took it meanwhile.
fn claim_for(
    table: &Table,
    seat: &mut Seat,
    farm: &Farm,
    seen: Seen,
    hold: Hold,
    sub: SubNo,
    host: HostNo,
) -> Result<Claim, BookResult>
    requires table { IsSeatOf table.now seat.old }
    requires held { HoldsAlone (take_of sub seen.cores ∷ []) (places_in seen.limit) (room_of host seen.cores seen.memory ∷ []) [] (view seat.old) }
    requires hold { hold ≡ hold_for sub host seen }
    requires leads { farm.now ≡ farm_in (view seat.old) }
    requires wanted { IsWanted farm.now seen.slot sub host seen }
    requires looked { HasLook (view seat.old).trail (look_by seen) }
    ensures same { IsSameSeat seat.old seat.new }
    ensures answer { MatchResult result
        (λ claim. HasClaimed seen.slot host (view seat.old) claim (view seat.new))
        (λ lost. IsLostAt farm.now seen.slot host (view seat.old) lost (view seat.new)) }
{
    let _sub = sub;
    let _host = host;
    let _farm = farm;
    match table.claim(seat, hold, seen) {
        Ok(claim) => Ok(claim),
        Err((hold, taken)) => {
            table.give_back(seat, hold);
            Err(BookResult::Taken { found: taken.found })
        }
    }
}
