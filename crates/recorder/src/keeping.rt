//! A farm and a keeper of its rows, changed together.

ghost use Rattle.std.specs.Prelude.{◌≡◌, ◌∷◌, [], Err, OnErr, OnOk};
ghost use Rattle.farm_types.specs.declared.entry.Entry.{Entry};
ghost use Rattle.farm_types.specs.Farm as farms;
ghost use Rattle.farm_types.specs.Kept.{IsKeptFarm};
ghost use Rattle.farm_types.specs.Run.{IsLegalStep};
ghost use Rattle.farm_types.specs.Step.{after};
ghost use Rattle.farm_rows.specs.Changes.{NamesExactly};
ghost use Rattle.farm_keeper.specs.Keeping.{Continues, HoldsWith, Keeps, LeavesTaken, MayLeave};
ghost use Rattle.farm_books.specs.Bookings.{entry_of};
ghost use Rattle.farm_core.specs.Bookings.{IsBookingOf};
ghost use Rattle.farm_core.specs.Change.{after_change, reserved_of};
ghost use Rattle.store_law.specs.Stored.{batch_of as stored_batch};
ghost use Rattle.recorder.specs.Faults.{is_store_fault};
ghost use Rattle.recorder.specs.Recording.{HasRecorded, IsOfEntry, HasSameRows, Records, StaysRecorded};
ghost use Rattle.recorder.specs.Telling.{TellsBatch, TellsOf};

use crate::batch::batch_of;
use crate::refusal::RecordFault;
use depend_law::legal_runs_keep_farms;
use farm_core::{Booking, Change, Farm};
use farm_keeper::Keeper;
use farm_rows::RowChange;
use farm_types::Entry;
use std::alloc::Global;
use store_law::{batches_make_the_rows, farms_differ_in_their_stores};

/// Records a change in the keeper and in the farm, or in neither. Its rows are put together in the room, whose memory is kept.
pub(crate) fn record_in<K: Keeper>(
    alloc: Global,
    farm: &mut Farm,
    keeper: &mut K,
    room: &mut Vec<u8>,
    entry: &Entry,
    change: Change,
) -> Result<(), RecordFault>
    requires { IsOfEntry farm.old entry.now change }
    ensures farm { Records farm.old (after_change farm.old change) result farm.new }
    ensures kept { HasRecorded (K.holds keeper.old) (K.left keeper.old) farm.old → HasRecorded (K.holds keeper.new) (K.left keeper.new) farm.new }
    ensures same { HasSameRows farm.old (after farm.old entry.now) → keeper.new ≡ keeper.old }
    ensures keeper { Continues K.tells K.faults keeper.old keeper.new (is_store_fault result) }
    ensures told { TellsOf K.commits farm.old (entry.now ∷ []) result keeper.old keeper.new }
{
    let mut change = change;
    match make_ready(alloc, farm, keeper, room, entry, &mut change) {
        Ok(()) => {
            farm.apply(change);
            Ok(())
        }
        Err(fault) => refused(change, fault),
    }
}

// The fault, for a change that isn't recorded.
fn refused(_change: Change, fault: RecordFault) -> Result<(), RecordFault>
    ensures { result ≡ Err fault }
{
    Err(fault)
}

// Takes the memory that the change needs, and tells the keeper its rows. The farm is as before.
fn make_ready<K: Keeper>(
    alloc: Global,
    farm: &mut Farm,
    keeper: &mut K,
    room: &mut Vec<u8>,
    entry: &Entry,
    change: &mut Change,
) -> Result<(), RecordFault>
    requires { IsOfEntry farm.old entry.now change.old }
    ensures farm { farm.new ≡ farm.old }
    ensures ok { OnOk result (change.new ≡ reserved_of change.old) }
    ensures kept { StaysRecorded (K.holds keeper.old) (K.left keeper.old) (K.holds keeper.new) (K.left keeper.new) farm.old entry.now result }
    ensures same { HasSameRows farm.old (after farm.old entry.now) → keeper.new ≡ keeper.old }
    ensures keeper { Continues K.tells K.faults keeper.old keeper.new (is_store_fault result) }
    ensures told { TellsOf K.commits farm.old (entry.now ∷ []) result keeper.old keeper.new }
{
    farm.kept();
    farm.reserve(alloc, change)?;
    keep(alloc, keeper, room, change.batch())
}

/// Records a booking that was decided over this farm, in the keeper and in the farm, or in neither. Its rows are put together in the room.
pub(crate) fn record_booking_in<K: Keeper>(
    alloc: Global,
    farm: &mut Farm,
    keeper: &mut K,
    room: &mut Vec<u8>,
    booking: &Booking,
) -> Result<(), RecordFault>
    requires { IsBookingOf farm.old booking.now }
    ensures farm { Records farm.old (after farm.old (entry_of booking.now.booked)) result farm.new }
    ensures kept { HasRecorded (K.holds keeper.old) (K.left keeper.old) farm.old → HasRecorded (K.holds keeper.new) (K.left keeper.new) farm.new }
    ensures same { HasSameRows farm.old (after farm.old (entry_of booking.now.booked)) → keeper.new ≡ keeper.old }
    ensures keeper { Continues K.tells K.faults keeper.old keeper.new (is_store_fault result) }
    ensures told { TellsOf K.commits farm.old (entry_of booking.now.booked ∷ []) result keeper.old keeper.new }
{
    farm.kept();
    keep(alloc, keeper, room, booking.batch())?;
    farm.book(booking);
    Ok(())
}

// Tells the keeper the changes, where there are any.
fn keep<K: Keeper>(
    alloc: Global,
    keeper: &mut K,
    room: &mut Vec<u8>,
    changes: &[RowChange],
) -> Result<(), RecordFault>
    ensures kept { (f : farms.Farm) (e : Entry) → IsKeptFarm f → IsLegalStep f e → NamesExactly f (after f e) changes.now
        → StaysRecorded (K.holds keeper.old) (K.left keeper.old) (K.holds keeper.new) (K.left keeper.new) f e result }
    ensures same { (f : farms.Farm) (e : Entry) → IsKeptFarm f → IsLegalStep f e → NamesExactly f (after f e) changes.now → HasSameRows f (after f e)
        → keeper.new ≡ keeper.old }
    ensures keeper { Continues K.tells K.faults keeper.old keeper.new (is_store_fault result) }
    ensures told { (f : farms.Farm) (e : Entry) → IsKeptFarm f → IsLegalStep f e → NamesExactly f (after f e) changes.now
        → TellsOf K.commits f (e ∷ []) result keeper.old keeper.new }
{
    batches_make_the_rows();
    farms_differ_in_their_stores();
    legal_runs_keep_farms();
    if changes.is_empty() {
        return Ok(());
    }
    commit(alloc, keeper, room, changes)
}

// Commits the changes to the keeper as one batch.
fn commit<K: Keeper>(
    alloc: Global,
    keeper: &mut K,
    room: &mut Vec<u8>,
    changes: &[RowChange],
) -> Result<(), RecordFault>
    ensures taken { OnOk result (HoldsWith (stored_batch changes.now) (K.holds keeper.old) (K.holds keeper.new)) }
    ensures kept { OnErr result (Keeps (K.holds keeper.old) (K.holds keeper.new)) }
    ensures left_ok { OnOk result (LeavesTaken (stored_batch changes.now) (K.holds keeper.old) (K.left keeper.new)) }
    ensures left_err { OnErr result (MayLeave (stored_batch changes.now) (K.holds keeper.old) (K.left keeper.old) (K.left keeper.new)) }
    ensures keeper { Continues K.tells K.faults keeper.old keeper.new (is_store_fault result) }
    ensures told { TellsBatch K.commits (stored_batch changes.now) result keeper.old keeper.new }
{
    let batch = batch_of(alloc, changes, room)?;
    keeper.commit(alloc, batch)?;
    Ok(())
}
