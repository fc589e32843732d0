//! A claim's word runs ahead of its booking, and comes back.

ghost use Rattle.std.specs.Prelude.{◌≡◌, ◌+◌, ◌<◌, ◌^◌, [], ◌∷◌, IfOk, IsOk};
ghost use Rattle.frame_words.specs.Bits.{frame_bits};
ghost use Rattle.booking_rule.specs.Alone.{IsAlone};
ghost use Rattle.booking_rule.specs.Kept.{farm_in};
ghost use Rattle.booking_rule.specs.Link.{stand_at};
ghost use Rattle.recording_core.specs.Machine.{IsFormed};
ghost use Rattle.recording_core.specs.Records.RecorderKind.{confirms, withdraws};
ghost use Rattle.booking_table.specs.Seats.{view, IsSeatOf, IsSameSeat};
ghost use Rattle.booking_table.specs.Holds.{claim_of};
ghost use Rattle.recording_table.specs.Steps.{MayTake};
ghost use Rattle.recording_table.specs.Booking.{CanBook};
ghost use Rattle.recording_table.specs.Calls.{IsConfirmed, withdrawn};

use crate::doing::Doing;
use crate::steps::exchange;
use booking_table::{Claim, Seat, Table};
use farm_types::{Cores, HostNo, Version};
use frame_words::{FrameWord, RUNNING, SETUP};

// where the words stand
const FRAMES: usize = 1;

// the word of a claim, and of one that runs ahead of its booking
fn word_in(phase: u8, version: Version, host: HostNo, cores: Cores) -> u64
    requires fits { (phase < 16) × (version < 2 ^ 24) × (cores < 2 ^ 20) }
    ensures word { result ≡ frame_bits (record { phase = phase; version = version; host = host; cores = cores }) }
{
    let word = FrameWord {
        phase,
        version,
        host,
        cores,
    };
    word.pack()
}

/// The word of a claim becomes that of its running frame, ahead of the booking's entry, which can be recorded if the farm
/// allows it still; or another one is found, which it tells. A seat that is alone finds that of its only claim.
pub fn confirm_claim(table: &Table, seat: &mut Seat, claim: &Claim) -> Result<(), u64>
    requires table { IsSeatOf table.now seat.old }
    requires formed { IsFormed (claim_of claim.now) }
    requires may { MayTake (view seat.old) (confirms (claim_of claim.now)) }
    ensures same { IsSameSeat seat.old seat.new }
    ensures answer { IsConfirmed (view seat.old) (claim_of claim.now) result (view seat.new) }
    ensures can { IfOk result (λ _. CanBook (view seat.old) (claim_of claim.now)) }
    ensures alone { IsAlone (claim_of claim.now ∷ []) (view seat.old) → (stand_at (farm_in (view seat.old)) claim.now.slot).version + 1 ≡ claim.now.version
        → IsOk result }
{
    let slot = claim.slot();
    let version = claim.version();
    let host = claim.hold().host();
    let cores = claim.hold().burst().cores();
    let old = word_in(SETUP, version, host, cores);
    let new = word_in(RUNNING, version, host, cores);
    let doing = Doing::Confirms {
        slot,
        version,
        host,
        sub: claim.hold().burst().sub(),
        cores,
        limit: claim.hold().burst().limit(),
        memory: claim.hold().memory(),
    };
    let found = exchange(table, seat, slot.0 as usize + FRAMES, old, new, doing);
    if found != old {
        return Err(found);
    }
    Ok(())
}

/// The word that runs ahead becomes that of the claim again.
pub fn withdraw_claim(table: &Table, seat: &mut Seat, claim: &Claim)
    requires table { IsSeatOf table.now seat.old }
    requires formed { IsFormed (claim_of claim.now) }
    requires may { MayTake (view seat.old) (withdraws (claim_of claim.now)) }
    ensures same { IsSameSeat seat.old seat.new }
    ensures withdrawn { view seat.new ≡ withdrawn (view seat.old) (claim_of claim.now) }
{
    let slot = claim.slot();
    let version = claim.version();
    let host = claim.hold().host();
    let cores = claim.hold().burst().cores();
    let old = word_in(RUNNING, version, host, cores);
    let new = word_in(SETUP, version, host, cores);
    let doing = Doing::Withdraws {
        slot,
        version,
        host,
        sub: claim.hold().burst().sub(),
        cores,
        limit: claim.hold().burst().limit(),
        memory: claim.hold().memory(),
    };
    exchange(table, seat, slot.0 as usize + FRAMES, old, new, doing);
}
