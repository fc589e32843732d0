//! The booking of the recorder's own claim, which is all that its seat holds.

ghost use Rattle.std.specs.Prelude.{◌≡◌, ◌==◌, ◌<◌, ◌^◌, [], length, true, false};
ghost use Rattle.farm_types.specs.Step.{after};
ghost use Rattle.farm_keeper.specs.Keeping.{Continues};
ghost use Rattle.booking_rule.specs.Kept.{farm_in};
ghost use Rattle.booking_table.specs.Holds.{claim_of};
ghost use Rattle.booking_table.specs.Seats.{view, IsSeatOf, IsSameSeat};
ghost use Rattle.recorder.specs.Recording.{HasSameRows};
ghost use Rattle.recording_core.specs.Machine.{MayEnter};
ghost use Rattle.recording_table.specs.Booking.{IsAllowed};
ghost use Rattle.recording_turns.specs.Resting.{IsAtRest, WentOn};
ghost use Rattle.booking_recorder.specs.Alone.{BooksAlone, EntersBook, EntersClaim, EntersOn, GoesAlone, OwnsClaim, TellsBook, WasOwned, book_of, is_booked_now, is_store_book};
ghost use Rattle.booking_recorder.specs.Claims.{BooksAhead, CanStill, entry_for};
ghost use Rattle.booking_recorder.specs.Recording.{most_entries};

use crate::book_result::BookResult;
use crate::claiming::book_ahead;
use crate::refusal::ConfirmRefusal;
use booking_table::{Claim, Seat, Table};
use entry_law::books_alone;
use farm_core::Farm;
use farm_keeper::Keeper;
use farm_types::{Act, Entry, ProcRow};
use recorder::RecordedFarm;
use recording_table::{claims_can_be_booked, confirm_claim, record_booking, withdraw_claim};
use std::alloc::Global;

/// Books the frame of the recorder's own claim, of a journal with so many entries.
pub(crate) fn book_own<K: Keeper>(
    alloc: Global,
    plain: &mut RecordedFarm<K>,
    table: &Table,
    seat: &mut Seat,
    count: u64,
    claim: Claim,
    moment: u64,
) -> BookResult
    requires table { IsSeatOf table.now seat.old }
    requires owns { OwnsClaim claim (view seat.old) }
    requires leads { plain.old.farm ≡ farm_in (view seat.old) }
    requires counted { count ≡ length (view seat.old).journal }
    ensures seat { IsSameSeat seat.old seat.new }
    ensures rests { IsAtRest (view seat.new) }
    ensures leads { plain.new.farm ≡ farm_in (view seat.new) }
    ensures farm { BooksAlone plain.old.farm count claim.slot claim.hold.host moment result plain.new.farm }
    ensures journal { EntersBook (view seat.old) (entry_for claim moment) result (view seat.new) }
    ensures room { is_booked_now result ≡ true → (count == most_entries) ≡ false }
    ensures same { HasSameRows plain.old.farm (after plain.old.farm (entry_for claim moment)) → plain.new.keeper ≡ plain.old.keeper }
    ensures keeper { Continues K.tells K.faults plain.old.keeper plain.new.keeper (is_store_book result) }
    ensures told { TellsBook K.commits plain.old.farm claim.slot claim.hold.host moment result plain.old.keeper plain.new.keeper }
{
    run_own(table, seat, plain.read(), &claim);
    let booked = book_ahead(
        alloc,
        plain,
        count,
        claim.slot(),
        claim.hold().host(),
        moment,
    );
    settle_own(table, seat, plain.read(), claim, moment, booked)
}

// The claim's word becomes that of its running frame. No other seat ended the claim.
fn run_own(table: &Table, seat: &mut Seat, farm: &Farm, claim: &Claim)
    requires table { IsSeatOf table.now seat.old }
    requires owns { OwnsClaim claim.now (view seat.old) }
    requires leads { farm.now ≡ farm_in (view seat.old) }
    ensures same { IsSameSeat seat.old seat.new }
    ensures ahead { WasOwned claim.now (view seat.new) }
    ensures went { WentOn (view seat.old) (view seat.new) }
    ensures can { CanStill farm.now claim.now.slot claim.now.hold.host }
    ensures allowed { IsAllowed farm.now claim.now.slot claim.now.hold.host }
{
    farm.kept();
    claims_can_be_booked();
    let _ = confirm_claim(table, seat, claim);
}

// Records the booking whose word runs ahead; or takes the word back, and lets the claim go.
fn settle_own(
    table: &Table,
    seat: &mut Seat,
    farm: &Farm,
    claim: Claim,
    moment: u64,
    booked: Result<ProcRow, ConfirmRefusal>,
) -> BookResult
    requires table { IsSeatOf table.now seat.old }
    requires ahead { WasOwned claim (view seat.old) }
    requires counted { length (view seat.old).journal < 2 ^ 64 }
    requires booked { BooksAhead (farm_in (view seat.old)) (length (view seat.old).journal) claim.slot claim.hold.host moment booked farm.now }
    ensures same { IsSameSeat seat.old seat.new }
    ensures rests { IsAtRest (view seat.new) }
    ensures leads { farm.now ≡ farm_in (view seat.new) }
    ensures answer { result ≡ book_of booked }
    ensures journal { EntersClaim (view seat.old) (entry_for claim moment) booked (view seat.new) }
{
    match booked {
        Ok(row) => {
            record_own(table, seat, claim, moment);
            BookResult::Booked { row }
        }
        Err(why) => {
            leave_own(table, seat, claim);
            BookResult::Confirm { why }
        }
    }
}

// Records the booking of the claim, whose word runs ahead.
fn record_own(table: &Table, seat: &mut Seat, claim: Claim, moment: u64)
    requires table { IsSeatOf table.now seat.old }
    requires ahead { WasOwned claim (view seat.old) }
    requires may { MayEnter (view seat.old) (entry_for claim moment) }
    ensures same { IsSameSeat seat.old seat.new }
    ensures rests { IsAtRest (view seat.new) }
    ensures entered { EntersOn (view seat.old) (entry_for claim moment) (view seat.new) }
{
    books_alone();
    let entry = Entry {
        moment,
        act: Act::Book {
            slot: claim.slot(),
            host: claim.hold().host(),
        },
    };
    record_booking(table, seat, claim, &entry);
}

// The word that runs ahead becomes that of the claim again, then that of the waiting frame, and all that was held goes back.
fn leave_own(table: &Table, seat: &mut Seat, claim: Claim)
    requires table { IsSeatOf table.now seat.old }
    requires ahead { WasOwned claim (view seat.old) }
    ensures same { IsSameSeat seat.old seat.new }
    ensures goes { GoesAlone (view seat.old) [] [] [] [] (view seat.new) }
{
    withdraw_claim(table, seat, &claim);
    table.drop_claim(seat, claim);
}
