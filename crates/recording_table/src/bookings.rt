//! When the booking of a claim whose word runs ahead may be recorded.

ghost use Rattle.std.specs.Prelude.{ℕ, Option};
ghost use Rattle.farm_types.specs.Farm.{Farm};
ghost use Rattle.farm_types.specs.Kept.{IsKeptFarm};
ghost use Rattle.booking_rule.specs.declared.hold.Claim.{Claim};
ghost use Rattle.booking_rule.specs.declared.view.View.{View};
ghost use Rattle.booking_rule.specs.Kept.{farm_in};
ghost use Rattle.recording_core.specs.Machine.{MayRecord};
ghost use Rattle.recording_table.specs.Booking.{CanBook, HasPlace, IsAllowed, IsWhyLeft};

use entry_law::used_is_running;

/// A claim that can be booked has its place in the farm. A booking that has its place may be recorded exactly where its job isn't
/// paused, its host takes frames, and the burst and the limit let it run; the first of these that isn't so is the reason against it.
pub fn claims_can_be_booked()
    ensures placed { (v : View) (c : Claim) (p : Option ℕ) → IsKeptFarm (farm_in v) → MayRecord v p → CanBook v c → HasPlace (farm_in v) c.slot c.host }
    ensures allowed { (f : Farm) (slot host : ℕ) → IsKeptFarm f → HasPlace f slot host → IsAllowed f slot host }
    ensures reason { (f : Farm) (slot host : ℕ) → IsKeptFarm f → HasPlace f slot host → IsWhyLeft f slot host }
{
    used_is_running();
}
