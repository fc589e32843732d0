//! A booking by the recorder alone.

ghost use Rattle.std.specs.Prelude.{◌≡◌, ◌==◌, ◌<◌, length, true, false};
ghost use Rattle.farm_types.specs.declared.limits.TheConstants.{LAST_VERSION};
ghost use Rattle.farm_types.specs.Booking.{may_record, suits};
ghost use Rattle.farm_types.specs.Step.{after};
ghost use Rattle.farm_keeper.specs.Keeping.{Continues};
ghost use Rattle.fault_counts.specs.Counts.{incremented_if};
ghost use Rattle.booking_rule.specs.Kept.{farm_in};
ghost use Rattle.booking_table.specs.Seats.{view, IsSeatOf, IsSameSeat};
ghost use Rattle.recorder.specs.Recording.{HasSameRows, booking};
ghost use Rattle.recording_turns.specs.Resting.{IsAtRest, split_in};
ghost use Rattle.booking_recorder.specs.Recording.{most_entries};
ghost use Rattle.booking_recorder.specs.Alone.{BooksAlone, EntersAlone, TellsBook, is_booked_now, is_store_book};

use crate::alone_booking::book_own;
use crate::alone_claim::claim_alone;
use crate::book_result::BookResult;
use crate::farm_recorder::{Recorder, counted, faults_after};
use crate::naming::Naming;
use crate::refusal::ConfirmRefusal;
use booking_table::{Seat, Table};
use farm_keeper::Keeper;
use farm_types::{HostNo, Slot, SubNo, Version};
use recorder::RecordedFarm;
use std::alloc::Global;

impl<K: Keeper, N: Naming> Recorder<K, N> {
    /// Books the slot's frame, which suits the host and the subscription at that version, at the later of the farm's moment and this one (seconds), while
    /// no seat was split off: it claims the frame with its own seat, and books the claim. So exactly those frames are booked whose booking may be recorded,
    /// but for a spent journal, want of memory and the store. It takes no memory of its own.
    pub fn book(
        &mut self,
        alloc: Global,
        table: &Table,
        slot: Slot,
        version: Version,
        sub: SubNo,
        host: HostNo,
        moment: u64,
    ) -> BookResult
        requires table { table.now ≡ N.table }
        requires alone { split_in self.old.view.desk ≡ 0 }
        requires version { version < LAST_VERSION }
        requires suits { suits self.old.farm slot version host sub ≡ true }
        ensures farm { BooksAlone self.old.farm (length self.old.view.journal) slot host moment result self.new.farm }
        ensures journal { EntersAlone self.old.view (booking slot host moment) result self.new.view }
        ensures same { (may_record self.old.farm slot host ≡ true → HasSameRows self.old.farm (after self.old.farm (booking slot host moment)))
            → self.new.keeper ≡ self.old.keeper }
        ensures keeper { Continues K.tells K.faults self.old.keeper self.new.keeper (is_store_book result) }
        ensures told { TellsBook K.commits self.old.farm slot host moment result self.old.keeper self.new.keeper }
        ensures faults { self.new.faults ≡ incremented_if (is_store_book result) self.old.faults }
    {
        let result = book_in(
            alloc,
            &mut self.plain,
            table,
            &mut self.seat,
            self.count,
            slot,
            version,
            sub,
            host,
            moment,
        );
        self.count = counted(self.count, is_booked(&result));
        self.faults = faults_after(self.faults, failed_at_book(&result));
        result
    }
}

// Claims the frame and books the claim, of a journal with so many entries.
fn book_in<K: Keeper>(
    alloc: Global,
    plain: &mut RecordedFarm<K>,
    table: &Table,
    seat: &mut Seat,
    count: u64,
    slot: Slot,
    version: Version,
    sub: SubNo,
    host: HostNo,
    moment: u64,
) -> BookResult
    requires table { IsSeatOf table.now seat.old }
    requires rests { IsAtRest (view seat.old) }
    requires alone { split_in (view seat.old).desk ≡ 0 }
    requires leads { plain.old.farm ≡ farm_in (view seat.old) }
    requires counted { count ≡ length (view seat.old).journal }
    requires version { version < LAST_VERSION }
    requires suits { suits plain.old.farm slot version host sub ≡ true }
    ensures seat { IsSameSeat seat.old seat.new }
    ensures rests { IsAtRest (view seat.new) }
    ensures leads { plain.new.farm ≡ farm_in (view seat.new) }
    ensures farm { BooksAlone plain.old.farm count slot host moment result plain.new.farm }
    ensures journal { EntersAlone (view seat.old) (booking slot host moment) result (view seat.new) }
    ensures room { is_booked_now result ≡ true → (count == most_entries) ≡ false }
    ensures same { (may_record plain.old.farm slot host ≡ true → HasSameRows plain.old.farm (after plain.old.farm (booking slot host moment)))
        → plain.new.keeper ≡ plain.old.keeper }
    ensures keeper { Continues K.tells K.faults plain.old.keeper plain.new.keeper (is_store_book result) }
    ensures told { TellsBook K.commits plain.old.farm slot host moment result plain.old.keeper plain.new.keeper }
{
    match claim_alone(table, seat, plain.read(), slot, version, sub, host) {
        Ok(claim) => book_own(alloc, plain, table, seat, count, claim, moment),
        Err(lost) => lost,
    }
}

// Whether the frame was booked.
fn is_booked(tried: &BookResult) -> bool
    ensures { result ≡ is_booked_now tried.now }
{
    matches!(tried, BookResult::Booked { .. })
}

// Whether the store failed as the frame was booked.
fn failed_at_book(tried: &BookResult) -> bool
    ensures { result ≡ is_store_book tried.now }
{
    match tried {
        BookResult::Confirm { why } => *why == ConfirmRefusal::Store,
        BookResult::Booked { .. }
        | BookResult::Burst { .. }
        | BookResult::Limit { .. }
        | BookResult::Host { .. }
        | BookResult::Taken { .. } => false,
    }
}
