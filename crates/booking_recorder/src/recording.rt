//! An entry in the farm, in the keeper and on the words, or in none of them.

ghost use Rattle.std.specs.Prelude.{◌≡◌, ◌+◌, ◌<◌, ◌^◌, false, length};
ghost use Rattle.farm_types.specs.Step.{after};
ghost use Rattle.farm_keeper.specs.Keeping.{Continues};
ghost use Rattle.farm_core.specs.Change.{after_change};
ghost use Rattle.booking_rule.specs.Kept.{farm_in};
ghost use Rattle.booking_table.specs.Seats.{view, IsSeatOf, IsSameSeat};
ghost use Rattle.recorder.specs.Recording.{HasSameRows, IsOfEntry};
ghost use Rattle.recording_core.specs.Machine.{IsBooking};
ghost use Rattle.recording_turns.specs.Resting.{IsAtRest, split_in};
ghost use Rattle.booking_recorder.specs.Entries.{IsHeldBy, Records, TellsRecord};
ghost use Rattle.booking_recorder.specs.Faults.{is_held_fault, is_spent, is_store_fault};
ghost use Rattle.booking_recorder.specs.Views.{Enters};

use crate::entering::{carry_on, take_room};
use crate::plain::{record_plain, resized_by, turns_for, unrecorded};
use crate::refusal::RecordFault;
use booking_table::{Seat, Table};
use farm_core::Change;
use farm_keeper::Keeper;
use farm_types::Entry;
use recorder::RecordedFarm;
use std::alloc::Global;

/// Records an entry that is no booking, for which the journal has room: all that can fail comes before the journal's word is changed.
pub(crate) fn record_in<K: Keeper>(
    alloc: Global,
    plain: &mut RecordedFarm<K>,
    table: &Table,
    seat: &mut Seat,
    entry: &Entry,
    change: Change,
) -> Result<(), RecordFault>
    requires table { IsSeatOf table.now seat.old }
    requires rests { IsAtRest (view seat.old) }
    requires leads { plain.old.farm ≡ farm_in (view seat.old) }
    requires counted { length (view seat.old).journal + 1 < 2 ^ 64 }
    requires of_entry { IsOfEntry plain.old.farm entry.now change }
    requires unbooked { IsBooking entry.now.act → ⊥ }
    ensures seat { IsSameSeat seat.old seat.new }
    ensures rests { IsAtRest (view seat.new) }
    ensures leads { plain.new.farm ≡ farm_in (view seat.new) }
    ensures entered { Enters (view seat.old) entry.now result (view seat.new) }
    ensures held { IsHeldBy plain.old.farm entry.now (view seat.old) result (view seat.new) }
    ensures unspent { is_spent result ≡ false }
    ensures alone { split_in (view seat.old).desk ≡ 0 → is_held_fault result ≡ false }
    ensures farm { Records plain.old.farm (after_change plain.old.farm change) result plain.new.farm }
    ensures same { HasSameRows plain.old.farm (after plain.old.farm entry.now) → plain.new.keeper ≡ plain.old.keeper }
    ensures keeper { Continues K.tells K.faults plain.old.keeper plain.new.keeper (is_store_fault result) }
    ensures told { TellsRecord K.commits plain.old.farm entry.now result plain.old.keeper plain.new.keeper }
{
    let Ok(turns) = turns_for(alloc, plain.read(), entry, &change) else {
        return unrecorded(change, RecordFault::NoMemory);
    };
    let resized = resized_by(plain.read(), entry, &change);
    match take_room(table, seat, plain.read(), &resized) {
        Ok(room) => {
            let recorded = record_plain(alloc, plain, entry, change);
            carry_on(
                table,
                seat,
                plain.read(),
                entry,
                turns.as_slice(),
                &resized,
                room,
                &recorded,
            );
            recorded
        }
        Err(found) => unrecorded(
            change,
            RecordFault::Held {
                cores: found.cores,
                memory: found.memory,
            },
        ),
    }
}
