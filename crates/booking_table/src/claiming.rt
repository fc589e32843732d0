//! A claim of a waiting frame, and the end of one that isn't booked.

ghost use Rattle.std.specs.Prelude.{◌≡◌, ◌+◌, ◌-◌, ◌<◌, ◌^◌, [], ◌∷◌, IsOk, MatchResult};
ghost use Rattle.frame_words.specs.Bits.{frame_bits};
ghost use Rattle.booking_rule.specs.Alone.{IsAlone};
ghost use Rattle.booking_rule.specs.Kept.{farm_in};
ghost use Rattle.booking_rule.specs.Link.{stand_at};
ghost use Rattle.booking_rule.specs.Looks.{HasLook};
ghost use Rattle.booking_rule.specs.Seats.{seats};
ghost use Rattle.booking_core.specs.Machine.{IsIdle, MayGive, MayGiveRoom};
ghost use Rattle.booking_table.specs.Seats.{view, IsSeatOf, IsSameSeat};
ghost use Rattle.booking_table.specs.declared.claiming.Dropped.TheVariants as dropping;
ghost use Rattle.booking_table.specs.Alone.{ShowsSeen};
ghost use Rattle.booking_table.specs.Holds.{HasHold, HasClaim, claim_of};
ghost use Rattle.booking_table.specs.Calls.{look_by, IsSeenFor, SuitsAt, claim_by, IsClaimed, IsTaken, IsDropped};

use crate::holds::{Claim, Hold};
use crate::seen::Seen;
use crate::table::{Seat, Table};
use farm_types::{Cores, HostNo, Version};
use frame_words::{FrameWord, SETUP, WAITING};

/// The frame wasn't waiting any more as it was seen: this word was found.
#[derive(Clone, Copy, Debug, PartialEq, Eq)]
pub struct Taken {
    pub found: u64,
}

/// How a claim ended. `Back`: the frame waits again, and all that was held for it was given back. `Withdrawn`: the recorder
/// had ended the claim, and has what was held for it; this word was found.
#[derive(Clone, Copy, Debug, PartialEq, Eq)]
pub enum Dropped {
    Back,
    Withdrawn { found: u64 },
}

// the word of a frame that waits at the version before this one
fn waiting_word(version: Version, cores: Cores) -> u64
    requires version { (0 < version) × (version < 16777216) }
    requires cores { cores < 2 ^ 20 }
    ensures word { result ≡ frame_bits (record { phase = 1; version = version - 1; host = 0; cores = cores }) }
{
    let before = Version(version.0 - 1);
    let waiting = FrameWord {
        phase: WAITING,
        version: before,
        host: HostNo(0),
        cores,
    };
    waiting.pack()
}

// the word of a frame that is claimed at this version
fn setup_word(version: Version, host: HostNo, cores: Cores) -> u64
    requires version { version < 16777216 }
    requires cores { cores < 2 ^ 20 }
    ensures word { result ≡ frame_bits (record { phase = 3; version = version; host = host; cores = cores }) }
{
    let setup = FrameWord {
        phase: SETUP,
        version,
        host,
        cores,
    };
    setup.pack()
}

impl Table {
    /// Claims a frame that was seen waiting, with what is held for it.
    pub fn claim(&self, seat: &mut Seat, hold: Hold, seen: Seen) -> Result<Claim, (Hold, Taken)>
        requires table { IsSeatOf self.now seat.old }
        requires may { (seats (view seat.old) ≡ 1) × IsIdle (view seat.old) }
        requires held { HasHold (view seat.old) hold }
        requires looked { HasLook (view seat.old).trail (look_by seen) }
        requires seen { IsSeenFor seen hold }
        requires suits { SuitsAt (view seat.old) seen.slot seen.version hold.host hold.burst.sub }
        ensures same { IsSameSeat seat.old seat.new }
        ensures answer { MatchResult result
            (λ c. (c ≡ claim_by hold seen) × IsClaimed (view seat.old) (claim_by hold seen) (view seat.new))
            (λ e. (e.0 ≡ hold) × IsTaken (view seat.old) (claim_by hold seen) e.1 (view seat.new)) }
        ensures alone { IsAlone [] (view seat.old) → ShowsSeen (view seat.old) seen → IsOk result }
    {
        let slot = seen.slot;
        let cores = hold.burst().cores();
        let version = Version(seen.version.0 + 1);
        let old = waiting_word(version, cores);
        let new = setup_word(version, hold.host(), cores);
        let found = self.win_slot(seat, slot, version, &hold, old, new);
        if found != old {
            return Err((hold, Taken { found }));
        }
        Ok(Claim {
            slot,
            version,
            hold,
        })
    }

    /// Lets a claim go that isn't booked: the frame waits again, and all that was held for it goes back, unless the recorder
    /// has ended the claim.
    pub fn drop_claim(&self, seat: &mut Seat, claim: Claim) -> Dropped
        requires table { IsSeatOf self.now seat.old }
        requires may { MayGive (view seat.old) }
        requires held { HasClaim (view seat.old) claim }
        requires room { MayGiveRoom (view seat.old) claim.hold.host }
        ensures same { IsSameSeat seat.old seat.new }
        ensures answer { IsDropped (view seat.old) claim result (view seat.new) }
        ensures alone { IsAlone (claim_of claim ∷ []) (view seat.old) → (stand_at (farm_in (view seat.old)) claim.slot).version + 1 ≡ claim.version
            → result ≡ dropping.Back }
    {
        let Claim {
            slot,
            version,
            hold,
        } = claim;
        let cores = hold.burst().cores();
        let old = setup_word(version, hold.host(), cores);
        let new = waiting_word(version, cores);
        let found = self.leave_slot(seat, slot, version, &hold, old, new);
        if found != old {
            let (burst, _, _) = hold.into_parts();
            let _ = burst.into_parts();
            return Dropped::Withdrawn { found };
        }
        self.give_back(seat, hold);
        Dropped::Back
    }
}
