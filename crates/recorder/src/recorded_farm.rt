//! The farm with its keeper.

ghost use Rattle.std.specs.Prelude.{◌≡◌, ◌∷◌, []};
ghost use Rattle.farm_types.specs.Formed.{IsFormed};
ghost use Rattle.farm_types.specs.Step.{HasCondition, after};
ghost use Rattle.farm_keeper.specs.Keeping.{Continues};
ghost use Rattle.farm_books.specs.Bookings.{entry_of};
ghost use Rattle.farm_core.specs.Bookings.{IsBookingOf};
ghost use Rattle.farm_core.specs.Change.{Prepares, after_change};
ghost use Rattle.recorder.specs.Faults.{is_store_fault};
ghost use Rattle.recorder.specs.Recording.{HasRecorded, IsOfEntry, HasSameRows, Records};
ghost use Rattle.recorder.specs.Telling.{TellsOf};

use crate::keeping::{record_booking_in, record_in};
use crate::refusal::RecordFault;
use farm_core::{Booking, Change, Farm};
use farm_keeper::Keeper;
use farm_types::{Entry, FarmFault};
use std::alloc::Global;
use std::marker::Model;

/// A farm with the keeper of its rows. Where the keeper tells the truth, it holds the farm's rows, and a stop at any moment leaves these, or those of
/// the farm one legal entry further.
#[derive(Drop)]
pub struct RecordedFarm<K: Keeper> {
    farm: Farm,
    keeper: K,
    room: Vec<u8>,
}

impl<K: Keeper> Model for RecordedFarm<K> {
    ghost use Rattle.recorder.specs.Recording.{HasRecorded, Recording};

    ghost Value = { Recording K };

    ghost view = { λ r. record { farm = r.farm; keeper = r.keeper } };

    ghost invariant = { λ r. K.tells r.keeper → HasRecorded (K.holds r.keeper) (K.left r.keeper) r.farm };
}

impl<K: Keeper> RecordedFarm<K> {
    /// The farm with the keeper that holds its rows.
    pub fn make(alloc: Global, farm: Farm, keeper: K) -> RecordedFarm<K>
        requires { K.tells keeper → HasRecorded (K.holds keeper) (K.left keeper) farm }
        ensures { result ≡ record { farm = farm; keeper = keeper } }
    {
        RecordedFarm {
            farm,
            keeper,
            room: Vec::new(alloc),
        }
    }

    /// The farm.
    pub fn read(&self) -> &Farm
        ensures { result.now ≡ self.now.farm }
    {
        &self.farm
    }

    /// What its keeper has: where it tells the truth, the farm's rows, and a stop leaves these, or those of the farm one legal entry further.
    pub fn recorded(&self)
        ensures { K.tells self.now.keeper → HasRecorded (K.holds self.now.keeper) (K.left self.now.keeper) self.now.farm }
    {
        let _farm = &self.farm;
    }

    /// The keeper, as it is.
    pub fn close(self) -> K
        ensures value { result ≡ self.keeper }
        ensures recorded { K.tells result → HasRecorded (K.holds result) (K.left result) self.farm }
    {
        self.keeper
    }

    /// Prepares what the entry does, and changes nothing. The entry is within its forms and limits, and an entry to book is one whose booking may be
    /// recorded.
    pub fn prepare(&self, alloc: Global, entry: &Entry) -> Result<Change, FarmFault>
        requires condition { HasCondition self.now.farm entry.now.act }
        requires formed { IsFormed entry.now }
        ensures { Prepares self.now.farm entry.now result }
    {
        self.farm.prepare(alloc, entry)
    }

    /// Records the entry's change in the keeper and in the farm, or in neither. A change that leaves each row as it is isn't told to the keeper.
    pub fn record(
        &mut self,
        alloc: Global,
        entry: &Entry,
        change: Change,
    ) -> Result<(), RecordFault>
        requires { IsOfEntry self.old.farm entry.now change }
        ensures farm { Records self.old.farm (after_change self.old.farm change) result self.new.farm }
        ensures same { HasSameRows self.old.farm (after self.old.farm entry.now) → self.new.keeper ≡ self.old.keeper }
        ensures keeper { Continues K.tells K.faults self.old.keeper self.new.keeper (is_store_fault result) }
        ensures told { TellsOf K.commits self.old.farm (entry.now ∷ []) result self.old.keeper self.new.keeper }
    {
        record_in(
            alloc,
            &mut self.farm,
            &mut self.keeper,
            &mut self.room,
            entry,
            change,
        )
    }

    /// Records a booking that was decided over this farm, in the keeper and in the farm, or in neither.
    pub fn record_booking(&mut self, alloc: Global, booking: &Booking) -> Result<(), RecordFault>
        requires { IsBookingOf self.old.farm booking.now }
        ensures farm { Records self.old.farm (after self.old.farm (entry_of booking.now.booked)) result self.new.farm }
        ensures same { HasSameRows self.old.farm (after self.old.farm (entry_of booking.now.booked)) → self.new.keeper ≡ self.old.keeper }
        ensures keeper { Continues K.tells K.faults self.old.keeper self.new.keeper (is_store_fault result) }
        ensures told { TellsOf K.commits self.old.farm (entry_of booking.now.booked ∷ []) result self.old.keeper self.new.keeper }
    {
        record_booking_in(
            alloc,
            &mut self.farm,
            &mut self.keeper,
            &mut self.room,
            booking,
        )
    }
}
