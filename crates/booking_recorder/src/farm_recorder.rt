//! The recorder.

ghost use Rattle.std.specs.Prelude.{◌≡◌, ◌==◌, ◌<◌, ◌+◌, true, false, length, MatchResult, if◌then◌else◌};
ghost use Rattle.farm_types.specs.Formed.{IsFormed};
ghost use Rattle.farm_types.specs.Kept.{IsKeptFarm};
ghost use Rattle.farm_types.specs.Run.{IsLegal};
ghost use Rattle.farm_types.specs.Step.{HasCondition, after};
ghost use Rattle.farm_keeper.specs.Keeping.{Continues};
ghost use Rattle.farm_core.specs.Change.{Prepares, after_change};
ghost use Rattle.fault_counts.specs.Counts.{incremented_if};
ghost use Rattle.booking_rule.specs.Kept.{farm_in};
ghost use Rattle.booking_rule.specs.Link.{farm_of};
ghost use Rattle.booking_rule.specs.Splits.{numbered, one_more};
ghost use Rattle.booking_table.specs.Holds.{claim_of};
ghost use Rattle.booking_table.specs.Seats.{view, IsSeatOf};
ghost use Rattle.recorder.specs.Recording.{HasRecorded, HasSameRows, IsOfEntry, IsUnstored};
ghost use Rattle.recording_core.specs.Machine.{IsBooking};
ghost use Rattle.recording_core.specs.Machine as machine;
ghost use Rattle.recording_turns.specs.Resting.{IsAtRest, IsPlaced, IsUnplaced, split_in};
ghost use Rattle.booking_recorder.specs.Claims.{Confirms, TellsConfirm, entry_for};
ghost use Rattle.booking_recorder.specs.Entries.{Commits, IsHeldBy, IsHeldIn, IsSpentAt, Records, RecordsAnswered, TellsCommit, TellsRecord};
ghost use Rattle.booking_recorder.specs.Faults.{is_held_fault, is_held_refusal, is_spent, is_store_fault, is_store_left, is_store_refusal};
ghost use Rattle.booking_recorder.specs.Recording.{most_entries, most_seats};
ghost use Rattle.booking_recorder.specs.Views.{Enters};

use crate::claiming::confirm_in;
use crate::naming::Naming;
use crate::plain::unrecorded;
use crate::recording::record_in;
use crate::refusal::{CommitRefusal, ConfirmRefusal, PassRefusal, RecordFault};
use booking_table::{Claim, Seat, Table};
use farm_core::{Change, Farm};
use farm_keeper::Keeper;
use farm_types::{Answer, Entry, FarmFault, ProcRow};
use recorder::RecordedFarm;
use recording_turns::place_farm;
use std::alloc::Global;
use std::marker::{Model, PhantomData};

// how many seats there may be beside the recorder's
const MOST_SEATS: u32 = 64;

/// A farm with the keeper of its rows and the recorder's seat of a table, changed together: the seat's journal leads to the farm, between two calls
/// no word is left to change, and the seat holds nothing.
#[derive(Drop)]
pub struct Recorder<K: Keeper, N: Naming> {
    pub(crate) plain: RecordedFarm<K>,
    pub(crate) seat: Seat,
    pub(crate) count: u64,
    split: u32,
    pub(crate) faults: u64,
    of: PhantomData<N>,
}

impl<K: Keeper, N: Naming> Model for Recorder<K, N> {
    ghost use Rattle.booking_recorder.specs.Recording.{IsHome, Recording};

    ghost Value = { Recording K };

    ghost view = { λ r. record { farm = r.plain.farm; keeper = r.plain.keeper; view = r.seat.me.0; faults = r.faults } };

    ghost invariant = { λ r. IsHome N.table r.plain.farm r.seat r.count r.split };
}

impl<K: Keeper, N: Naming> Recorder<K, N> {
    /// The farm with the keeper that holds its rows, on a new table, whose words come to show it.
    pub fn make(alloc: Global, farm: Farm, keeper: K, table: &Table, seat: Seat) -> Recorder<K, N>
        requires recorded { K.tells keeper → HasRecorded (K.holds keeper) (K.left keeper) farm }
        requires table { table.now ≡ N.table }
        requires seat { IsSeatOf table.now seat }
        requires unplaced { IsUnplaced (view seat) }
        ensures farm { result.farm ≡ farm }
        ensures keeper { result.keeper ≡ keeper }
        ensures placed { IsPlaced (view seat) farm result.view }
        ensures faults { result.faults ≡ 0 }
    {
        let mut seat = seat;
        farm.kept();
        place_farm(table, &mut seat, &farm);
        Recorder {
            plain: RecordedFarm::make(alloc, farm, keeper),
            seat,
            count: 0,
            split: 0,
            faults: 0,
            of: PhantomData,
        }
    }

    /// The farm.
    pub fn read(&self) -> &Farm
        ensures { result.now ≡ self.now.farm }
    {
        self.plain.read()
    }

    /// What its keeper has: where it tells the truth, the farm's rows, and a stop leaves these, or those of the farm one legal entry further.
    pub fn recorded(&self)
        ensures { K.tells self.now.keeper → HasRecorded (K.holds self.now.keeper) (K.left self.now.keeper) self.now.farm }
    {
        self.plain.recorded();
    }

    /// What the recorder's seat knows between two calls: nothing is left to do, it holds nothing, and its journal leads to the farm.
    pub fn rests(&self)
        ensures { IsAtRest self.now.view × (self.now.farm ≡ farm_in self.now.view) }
    {
        let _seat = &self.seat;
    }

    /// What its journal is: a legal run from the farm with which the words began, which keeps what every farm does.
    pub fn legal(&self)
        ensures { IsKeptFarm (farm_of self.now.view.opening) × IsLegal (farm_of self.now.view.opening) self.now.view.journal }
    {
        let _seat = &self.seat;
    }

    /// The keeper and the seat, as they are.
    pub fn close(self) -> (K, Seat)
        ensures keeper { result.0 ≡ self.keeper }
        ensures seat { IsSeatOf N.table result.1 × (view result.1 ≡ self.view) }
        ensures rests { IsAtRest (view result.1) × (farm_in (view result.1) ≡ self.farm) }
        ensures recorded { K.tells result.0 → HasRecorded (K.holds result.0) (K.left result.0) self.farm }
    {
        let keeper = self.plain.close();
        (keeper, self.seat)
    }

    /// A seat more, with the next number; full exactly where 64 were split off.
    pub fn split(&mut self, table: &Table) -> Result<Seat, PassRefusal>
        requires table { table.now ≡ N.table }
        ensures { MatchResult result
            (λ seat. IsSeatOf N.table seat × (view seat ≡ numbered self.old.view) × (split_in self.old.view.desk < most_seats)
            × (self.new ≡ record self.old { view = one_more self.old.view }))
            (λ _. (split_in self.old.view.desk ≡ most_seats) × (self.new ≡ self.old)) }
    {
        if self.split == MOST_SEATS {
            return Err(PassRefusal::Full);
        }
        let seat = table.split(&mut self.seat);
        self.split += 1;
        Ok(seat)
    }

    /// Prepares what the entry does, and changes nothing. The entry is within its forms and limits, and an entry to book is one whose booking may be
    /// recorded.
    pub fn prepare(&self, alloc: Global, entry: &Entry) -> Result<Change, FarmFault>
        requires condition { HasCondition self.now.farm entry.now.act }
        requires formed { IsFormed entry.now }
        ensures { Prepares self.now.farm entry.now result }
    {
        self.plain.prepare(alloc, entry)
    }

    /// Records the change of an entry, which is no booking, in the keeper, in the farm and on the words, or in none of them. A change that leaves each row
    /// as it is isn't told to the keeper.
    pub fn record(
        &mut self,
        alloc: Global,
        table: &Table,
        entry: &Entry,
        change: Change,
    ) -> Result<(), RecordFault>
        requires table { table.now ≡ N.table }
        requires of_entry { IsOfEntry self.old.farm entry.now change }
        requires unbooked { IsBooking entry.now.act → ⊥ }
        ensures farm { Records self.old.farm (after_change self.old.farm change) result self.new.farm }
        ensures journal { Enters self.old.view entry.now result self.new.view }
        ensures spent { is_spent result ≡ (length self.old.view.journal == most_entries) }
        ensures held { IsHeldBy self.old.farm entry.now self.old.view result self.new.view }
        ensures alone { split_in self.old.view.desk ≡ 0 → is_held_fault result ≡ false }
        ensures same { HasSameRows self.old.farm (after self.old.farm entry.now) → self.new.keeper ≡ self.old.keeper }
        ensures keeper { Continues K.tells K.faults self.old.keeper self.new.keeper (is_store_fault result) }
        ensures told { TellsRecord K.commits self.old.farm entry.now result self.old.keeper self.new.keeper }
        ensures faults { self.new.faults ≡ incremented_if (is_store_fault result) self.old.faults }
    {
        if self.count == u64::MAX {
            return unrecorded(change, RecordFault::Spent);
        }
        let result = record_in(alloc, &mut self.plain, table, &mut self.seat, entry, change);
        self.count = counted(self.count, result.is_ok());
        self.faults = faults_after(self.faults, failed_at_entry(&result));
        result
    }

    /// Records an entry, which is no booking, and says what the farm answers to it. The entry is within its forms and limits.
    pub fn commit(
        &mut self,
        alloc: Global,
        table: &Table,
        entry: &Entry,
    ) -> Result<Answer, CommitRefusal>
        requires table { table.now ≡ N.table }
        requires formed { IsFormed entry.now }
        requires unbooked { IsBooking entry.now.act → ⊥ }
        ensures farm { Commits self.old.farm entry.now result self.new.farm }
        ensures journal { Enters self.old.view entry.now result self.new.view }
        ensures spent { IsSpentAt (length self.old.view.journal) result }
        ensures held { IsHeldIn self.old.farm entry.now self.old.view result self.new.view }
        ensures alone { split_in self.old.view.desk ≡ 0 → is_held_refusal result ≡ false }
        ensures same { IsUnstored self.old.farm entry.now → self.new.keeper ≡ self.old.keeper }
        ensures keeper { Continues K.tells K.faults self.old.keeper self.new.keeper (is_store_refusal result) }
        ensures told { TellsCommit K.commits self.old.farm entry.now result self.old.keeper self.new.keeper }
        ensures faults { self.new.faults ≡ incremented_if (is_store_refusal result) self.old.faults }
    {
        let change = self.prepare(alloc, entry)?;
        self.record_answered(alloc, table, entry, change)
    }

    // Records the entry's change, and says its answer.
    fn record_answered(
        &mut self,
        alloc: Global,
        table: &Table,
        entry: &Entry,
        change: Change,
    ) -> Result<Answer, CommitRefusal>
        requires table { table.now ≡ N.table }
        requires of_entry { IsOfEntry self.old.farm entry.now change }
        requires unbooked { IsBooking entry.now.act → ⊥ }
        ensures farm { RecordsAnswered self.old.farm (after_change self.old.farm change) change.answer result self.new.farm }
        ensures journal { Enters self.old.view entry.now result self.new.view }
        ensures spent { IsSpentAt (length self.old.view.journal) result }
        ensures held { IsHeldIn self.old.farm entry.now self.old.view result self.new.view }
        ensures alone { split_in self.old.view.desk ≡ 0 → is_held_refusal result ≡ false }
        ensures same { HasSameRows self.old.farm (after self.old.farm entry.now) → self.new.keeper ≡ self.old.keeper }
        ensures keeper { Continues K.tells K.faults self.old.keeper self.new.keeper (is_store_refusal result) }
        ensures told { TellsCommit K.commits self.old.farm entry.now result self.old.keeper self.new.keeper }
        ensures faults { self.new.faults ≡ incremented_if (is_store_refusal result) self.old.faults }
    {
        let answer = change.answer();
        self.record(alloc, table, entry, change)?;
        Ok(answer)
    }

    /// Books the frame of a claim at the later of the farm's moment and this one (seconds): its word runs ahead of the entry, and shows it then. Where it
    /// can't be booked any more the word is the claim's again, unless another one was found, and the claim is handed back.
    pub fn confirm(
        &mut self,
        alloc: Global,
        table: &Table,
        claim: Claim,
        moment: u64,
    ) -> Result<ProcRow, (Claim, ConfirmRefusal)>
        requires table { table.now ≡ N.table }
        requires formed { machine.IsFormed (claim_of claim) }
        ensures confirms { Confirms self.old.farm self.old.view claim moment result self.new.farm self.new.view }
        ensures same { HasSameRows self.old.farm (after self.old.farm (entry_for claim moment)) → self.new.keeper ≡ self.old.keeper }
        ensures keeper { Continues K.tells K.faults self.old.keeper self.new.keeper (is_store_left result) }
        ensures told { TellsConfirm K.commits self.old.farm claim moment result self.old.keeper self.new.keeper }
        ensures faults { self.new.faults ≡ incremented_if (is_store_left result) self.old.faults }
    {
        let result = confirm_in(
            alloc,
            &mut self.plain,
            table,
            &mut self.seat,
            self.count,
            claim,
            moment,
        );
        self.count = counted(self.count, result.is_ok());
        self.faults = faults_after(self.faults, failed_at_claim(&result));
        result
    }
}

/// How many entries there are after one more was recorded, or none.
pub(crate) fn counted(count: u64, more: bool) -> u64
    requires { more ≡ true → count < most_entries }
    ensures { result ≡ (if more then count + 1 else count) }
{
    if more {
        return count + 1;
    }
    count
}

/// How often the store failed, once it did so again or didn't. The count stays at its last number.
pub(crate) fn faults_after(faults: u64, failed: bool) -> u64
    ensures { result ≡ incremented_if failed faults }
{
    if failed {
        return faults.saturating_add(1);
    }
    faults
}

// Whether the store failed as an entry was recorded.
fn failed_at_entry(recorded: &Result<(), RecordFault>) -> bool
    ensures { result ≡ is_store_fault recorded.now }
{
    match recorded {
        Ok(()) => false,
        Err(fault) => *fault == RecordFault::Store,
    }
}

// Whether the store failed as a claim was booked.
fn failed_at_claim(booked: &Result<ProcRow, (Claim, ConfirmRefusal)>) -> bool
    ensures { result ≡ is_store_left booked.now }
{
    match booked {
        Ok(_) => false,
        Err((_, why)) => *why == ConfirmRefusal::Store,
    }
}
