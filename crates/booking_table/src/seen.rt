//! A look at a slot.

ghost use Rattle.std.specs.Prelude.{◌≡◌, ◌<◌, ◌^◌, ℕ, [], None};
ghost use Rattle.farm_types.specs.Limits.{IsBetween};
ghost use Rattle.farm_types.specs.declared.limits.TheConstants.{LEAST_CORES, LEAST_MEMORY, MOST_CORES, MOST_MEMORY};
ghost use Rattle.booking_rule.specs.Alone.{IsAlone};
ghost use Rattle.booking_rule.specs.Looks.{HasLook};
ghost use Rattle.booking_rule.specs.Seats.{IsSeated};
ghost use Rattle.booking_table.specs.Seats.{view, IsSeatOf, IsSameSeat};
ghost use Rattle.booking_table.specs.Alone.{ShowsSeen};
ghost use Rattle.booking_table.specs.Holds.{IsLimit};
ghost use Rattle.booking_table.specs.Calls.{seen_of, seen_in, limit_in, looked, look_by};

use crate::table::{Seat, Table};
use farm_types::{Cores, Kb, LimitNo, ShowNo, Slot, Version};
use frame_words::{AmountWord, FrameWord};

/// What a slot's two words showed, one after the other: phase, version and cores by the frame word, the rest by the amount
/// word.
#[derive(Clone, Copy, Debug, PartialEq, Eq)]
pub struct Seen {
    pub slot: Slot,
    pub phase: u8,
    pub version: Version,
    pub cores: Cores,
    pub show: ShowNo,
    pub limit: Option<LimitNo>,
    pub memory: Kb,
}

impl Table {
    /// Looks at a slot's frame word, then at its amount word. Of a waiting frame the amounts are its layer's, and its trail has
    /// the look that a claim asks for, below the last version.
    pub fn look(&self, seat: &mut Seat, slot: Slot) -> Seen
        requires table { IsSeatOf self.now seat.old }
        requires seated { IsSeated (view seat.old) }
        requires within { slot < 65536 }
        ensures same { IsSameSeat seat.old seat.new }
        ensures looked { (frame amount : ℕ) × (result ≡ seen_of slot frame amount) × (view seat.new ≡ looked (view seat.old) slot frame amount) }
        ensures cores { result.phase ≡ 1 → IsBetween LEAST_CORES MOST_CORES result.cores }
        ensures memory { result.phase ≡ 1 → IsBetween LEAST_MEMORY MOST_MEMORY result.memory }
        ensures look { result.phase ≡ 1 → result.version < 16777215 → HasLook (view seat.new).trail (look_by result) }
        ensures fits { (result.phase < 16) × (result.version < 2 ^ 24) × (result.cores < 2 ^ 20) × IsLimit result.limit }
        ensures alone { IsAlone [] (view seat.old) → ShowsSeen (view seat.old) result × ((view seat.old).number ≡ None) }
    {
        let frame = self.load_frame(seat, slot);
        let amount = self.load_amount(seat, slot);
        seen_of(slot, FrameWord::unpack(frame), AmountWord::unpack(amount))
    }
}

// What the two words show.
fn seen_of(slot: Slot, frame: FrameWord, amount: AmountWord) -> Seen
    ensures { result ≡ seen_in slot frame amount }
{
    Seen {
        slot,
        phase: frame.phase,
        version: frame.version,
        cores: frame.cores,
        show: amount.show,
        limit: limit_in(amount.limit),
        memory: amount.memory,
    }
}

// The limit that an amount word names: 0 is none, and each other number is one more than the limit's.
fn limit_in(code: u8) -> Option<LimitNo>
    ensures { result ≡ limit_in code }
{
    if code == 0 {
        return None;
    }
    Some(LimitNo(code - 1))
}
