//! The booking of a claim, in the farm, in the keeper and on the words, or in none of them.

ghost use Rattle.std.specs.Prelude.{ℕ, ◌≡◌, ◌==◌, ◌<◌, ◌^◌, true, false, length, IfOk, MatchResult, Some};
ghost use Rattle.std.specs.Result.{result_err};
ghost use Rattle.farm_types.specs.Booking.{may_record};
ghost use Rattle.farm_types.specs.Run.{live_at};
ghost use Rattle.farm_types.specs.Step.{after};
ghost use Rattle.farm_keeper.specs.Keeping.{Continues};
ghost use Rattle.farm_books.specs.Bookings.{IsAsked};
ghost use Rattle.farm_core.specs.Bookings.{IsBookingOf};
ghost use Rattle.booking_reasons.specs.WhyNot.{why_not_record};
ghost use Rattle.booking_rule.specs.declared.view.View.{View};
ghost use Rattle.booking_rule.specs.Kept.{farm_in};
ghost use Rattle.booking_rule.specs.Link.{stand_at};
ghost use Rattle.booking_table.specs.Holds.{claim_of};
ghost use Rattle.booking_table.specs.Seats.{view, IsSeatOf, IsSameSeat};
ghost use Rattle.recorder.specs.Recording.{HasSameRows, booking};
ghost use Rattle.recording_core.specs.Machine.{IsFormed, MayEnter};
ghost use Rattle.recording_turns.specs.Resting.{IsAtRest};
ghost use Rattle.booking_recorder.specs.Claims.{BooksAhead, BooksNow, CanStill, Confirms, IsWithdrawn, MayStill, RunsAhead, TellsAhead, TellsConfirm, WasAhead, entry_for, left_with, stopped_by};
ghost use Rattle.booking_recorder.specs.Faults.{is_store_left, is_store_stop};
ghost use Rattle.booking_recorder.specs.Recording.{most_entries};
ghost use Rattle.booking_recorder.specs.Views.{Entered, Enters, Stays};

use crate::reading::stands_against;
use crate::refusal::ConfirmRefusal;
use booking_reasons::NotBooked;
use booking_table::{Claim, Seat, Table};
use entry_law::books_alone;
use farm_core::{Booking, Farm};
use farm_keeper::Keeper;
use farm_types::{Act, Entry, HostNo, ProcRow, Slot};
use recorder::{RecordFault, RecordedFarm};
use recording_table::{claims_can_be_booked, confirm_claim, record_booking, withdraw_claim};
use std::alloc::Global;

/// Books the frame of a claim, of a journal with so many entries.
pub(crate) fn confirm_in<K: Keeper>(
    alloc: Global,
    plain: &mut RecordedFarm<K>,
    table: &Table,
    seat: &mut Seat,
    count: u64,
    claim: Claim,
    moment: u64,
) -> Result<ProcRow, (Claim, ConfirmRefusal)>
    requires table { IsSeatOf table.now seat.old }
    requires rests { IsAtRest (view seat.old) }
    requires leads { plain.old.farm ≡ farm_in (view seat.old) }
    requires counted { count ≡ length (view seat.old).journal }
    requires formed { IsFormed (claim_of claim) }
    ensures seat { IsSameSeat seat.old seat.new }
    ensures rests { IsAtRest (view seat.new) }
    ensures leads { plain.new.farm ≡ farm_in (view seat.new) }
    ensures confirms { Confirms plain.old.farm (view seat.old) claim moment result plain.new.farm (view seat.new) }
    ensures same { HasSameRows plain.old.farm (after plain.old.farm (entry_for claim moment)) → plain.new.keeper ≡ plain.old.keeper }
    ensures keeper { Continues K.tells K.faults plain.old.keeper plain.new.keeper (is_store_left result) }
    ensures told { TellsConfirm K.commits plain.old.farm claim moment result plain.old.keeper plain.new.keeper }
{
    match run_ahead(table, seat, plain.read(), &claim) {
        Ok(()) => {
            let booked = book_ahead(
                alloc,
                plain,
                count,
                claim.slot(),
                claim.hold().host(),
                moment,
            );
            settle(table, seat, plain.read(), claim, moment, booked)
        }
        Err(found) => Err((claim, ConfirmRefusal::Withdrawn { found })),
    }
}

// The claim's word becomes that of its running frame, where it is the claim's.
fn run_ahead(table: &Table, seat: &mut Seat, farm: &Farm, claim: &Claim) -> Result<(), u64>
    requires table { IsSeatOf table.now seat.old }
    requires rests { IsAtRest (view seat.old) }
    requires leads { farm.now ≡ farm_in (view seat.old) }
    requires formed { IsFormed (claim_of claim.now) }
    ensures same { IsSameSeat seat.old seat.new }
    ensures answer { MatchResult result
        (λ _. RunsAhead (view seat.old) (claim_of claim.now) (view seat.new) × CanStill farm.now claim.now.slot claim.now.hold.host)
        (λ found. IsWithdrawn (view seat.old) claim.now (view seat.new) found) }
{
    farm.kept();
    claims_can_be_booked();
    confirm_claim(table, seat, claim)
}

// Records the booking whose word runs ahead; or takes the word back, and hands the claim back.
fn settle(
    table: &Table,
    seat: &mut Seat,
    farm: &Farm,
    claim: Claim,
    moment: u64,
    booked: Result<ProcRow, ConfirmRefusal>,
) -> Result<ProcRow, (Claim, ConfirmRefusal)>
    requires table { IsSeatOf table.now seat.old }
    requires ahead { WasAhead (claim_of claim) (view seat.old) }
    requires formed { IsFormed (claim_of claim) }
    requires counted { length (view seat.old).journal < 2 ^ 64 }
    requires booked { BooksAhead (farm_in (view seat.old)) (length (view seat.old).journal) claim.slot claim.hold.host moment booked farm.now }
    ensures same { IsSameSeat seat.old seat.new }
    ensures rests { IsAtRest (view seat.new) }
    ensures leads { farm.now ≡ farm_in (view seat.new) }
    ensures answer { result ≡ left_with claim booked }
    ensures entered { (v : View) → IsAtRest v → RunsAhead v (claim_of claim) (view seat.old) → Enters v (entry_for claim moment) booked (view seat.new) }
{
    match booked {
        Ok(row) => {
            record_claim(table, seat, claim, moment);
            Ok(row)
        }
        Err(why) => {
            take_back(table, seat, &claim);
            Err((claim, why))
        }
    }
}

// Records the booking of a claim whose word runs ahead.
fn record_claim(table: &Table, seat: &mut Seat, claim: Claim, moment: u64)
    requires table { IsSeatOf table.now seat.old }
    requires ahead { WasAhead (claim_of claim) (view seat.old) }
    requires formed { IsFormed (claim_of claim) }
    requires may { MayEnter (view seat.old) (entry_for claim moment) }
    ensures same { IsSameSeat seat.old seat.new }
    ensures rests { IsAtRest (view seat.new) }
    ensures entered { (v : View) → IsAtRest v → RunsAhead v (claim_of claim) (view seat.old) → Entered v (entry_for claim moment) (view seat.new) }
{
    books_alone();
    let entry = Entry {
        moment,
        act: Act::Book {
            slot: claim.slot(),
            host: claim.hold().host(),
        },
    };
    record_booking(table, seat, claim, &entry);
}

// The word that runs ahead becomes that of the claim again.
fn take_back(table: &Table, seat: &mut Seat, claim: &Claim)
    requires table { IsSeatOf table.now seat.old }
    requires ahead { WasAhead (claim_of claim.now) (view seat.old) }
    requires formed { IsFormed (claim_of claim.now) }
    ensures same { IsSameSeat seat.old seat.new }
    ensures rests { IsAtRest (view seat.new) }
    ensures stays { (v : View) → IsAtRest v → RunsAhead v (claim_of claim.now) (view seat.old) → Stays v (view seat.new) }
{
    withdraw_claim(table, seat, claim);
}

/// Books the slot's frame on the host in the keeper and in the farm, where the farm lets it still.
pub(crate) fn book_ahead<K: Keeper>(
    alloc: Global,
    plain: &mut RecordedFarm<K>,
    count: u64,
    slot: Slot,
    host: HostNo,
    moment: u64,
) -> Result<ProcRow, ConfirmRefusal>
    requires can { CanStill plain.old.farm slot host }
    ensures farm { BooksAhead plain.old.farm count slot host moment result plain.new.farm }
    ensures same { HasSameRows plain.old.farm (after plain.old.farm (booking slot host moment)) → plain.new.keeper ≡ plain.old.keeper }
    ensures keeper { Continues K.tells K.faults plain.old.keeper plain.new.keeper (is_store_stop result) }
    ensures told { TellsAhead K.commits plain.old.farm slot host moment result plain.old.keeper plain.new.keeper }
{
    if count == u64::MAX {
        return Err(ConfirmRefusal::EntriesSpent);
    }
    let found = plain.read().recordable(slot, host, moment);
    book_found(alloc, plain, count, slot, host, moment, &found)
}

// Books what the farm lets be booked, of a journal that has room; or tells what stands against it.
fn book_found<K: Keeper>(
    alloc: Global,
    plain: &mut RecordedFarm<K>,
    count: u64,
    slot: Slot,
    host: HostNo,
    moment: u64,
    found: &Result<Booking, NotBooked>,
) -> Result<ProcRow, ConfirmRefusal>
    requires can { CanStill plain.old.farm slot host }
    requires room { (count == most_entries) ≡ false }
    requires why { result_err found.now ≡ why_not_record plain.old.farm slot host }
    requires asked { IfOk found.now (λ b. IsAsked slot host moment b.booked) }
    requires booking { IfOk found.now (IsBookingOf plain.old.farm) }
    ensures farm { BooksAhead plain.old.farm count slot host moment result plain.new.farm }
    ensures same { HasSameRows plain.old.farm (after plain.old.farm (booking slot host moment)) → plain.new.keeper ≡ plain.old.keeper }
    ensures keeper { Continues K.tells K.faults plain.old.keeper plain.new.keeper (is_store_stop result) }
    ensures told { TellsAhead K.commits plain.old.farm slot host moment result plain.old.keeper plain.new.keeper }
{
    match found {
        Ok(decided) => book_decided(alloc, plain, count, slot, host, moment, decided),
        Err(why) => Err(stands_against(plain.read().books(), count, slot, host, *why)),
    }
}

// Books what was decided, and tells the attempt.
fn book_decided<K: Keeper>(
    alloc: Global,
    plain: &mut RecordedFarm<K>,
    count: u64,
    slot: Slot,
    host: HostNo,
    moment: u64,
    decided: &Booking,
) -> Result<ProcRow, ConfirmRefusal>
    requires can { CanStill plain.old.farm slot host }
    requires room { (count == most_entries) ≡ false }
    requires still { MayStill plain.old.farm slot host }
    requires asked { IsAsked slot host moment decided.now.booked }
    requires booking { IsBookingOf plain.old.farm decided.now }
    ensures farm { BooksAhead plain.old.farm count slot host moment result plain.new.farm }
    ensures same { HasSameRows plain.old.farm (after plain.old.farm (booking slot host moment)) → plain.new.keeper ≡ plain.old.keeper }
    ensures keeper { Continues K.tells K.faults plain.old.keeper plain.new.keeper (is_store_stop result) }
    ensures told { TellsAhead K.commits plain.old.farm slot host moment result plain.old.keeper plain.new.keeper }
{
    let _ = count;
    let _ = host;
    let _ = moment;
    books_alone();
    book_now(alloc, plain, decided)?;
    Ok(live_row(plain.read(), slot))
}

// Puts in a booking that was decided.
fn book_now<K: Keeper>(
    alloc: Global,
    plain: &mut RecordedFarm<K>,
    decided: &Booking,
) -> Result<(), ConfirmRefusal>
    requires { IsBookingOf plain.old.farm decided.now }
    ensures farm { (slot host moment : ℕ) → IsAsked slot host moment decided.now.booked → BooksNow plain.old.farm slot host moment result plain.new.farm }
    ensures same { (slot host moment : ℕ) → IsAsked slot host moment decided.now.booked
        → HasSameRows plain.old.farm (after plain.old.farm (booking slot host moment)) → plain.new.keeper ≡ plain.old.keeper }
    ensures keeper { Continues K.tells K.faults plain.old.keeper plain.new.keeper (is_store_stop result) }
    ensures told { (slot host moment : ℕ) → IsAsked slot host moment decided.now.booked
        → TellsAhead K.commits plain.old.farm slot host moment result plain.old.keeper plain.new.keeper }
{
    stopped(plain.record_booking(alloc, decided))
}

// What stopped a booking that was decided.
fn stopped(recorded: Result<(), RecordFault>) -> Result<(), ConfirmRefusal>
    ensures { result ≡ stopped_by recorded }
{
    match recorded {
        Ok(()) => Ok(()),
        Err(RecordFault::Store) => Err(ConfirmRefusal::Store),
        Err(RecordFault::NoMemory) => Err(ConfirmRefusal::Memory),
    }
}

// The attempt that a booking put into the slot.
fn live_row(farm: &Farm, slot: Slot) -> ProcRow
    requires { (stand_at farm.now slot).phase ≡ 4 }
    ensures { live_at farm.now slot ≡ Some result }
{
    farm.kept();
    match farm.books().live(slot) {
        Some(row) => row,
        None => unreachable!(),
    }
}
