//! Changes of one slot.

ghost use Rattle.std.specs.Prelude.{◌≡◌, ◌<◌, length, slice_get, slice_set};
ghost use Rattle.std.specs.Vec.{vec_capacity};
ghost use Rattle.job_book.specs.Book.{KeepsFrame};

use crate::jobs::Jobs;
use crate::reading::ready::{change_ready, has_waiting};
use farm_types::{Slot, SlotRow};

impl Jobs {
    /// The slot holds this row, whose frame is the one that stands there, in any state and with any retries.
    pub fn set_row(&mut self, slot: Slot, row: &SlotRow)
        requires { KeepsFrame (slice_get self.old.slots slot) row.now }
        ensures { self.new ≡ record self.old { slots = slice_set self.old.slots slot row.now } }
    {
        let Some(old) = self.row(slot) else {
            unreachable!()
        };
        let Some(was) = &old.frame else {
            unreachable!()
        };
        let Some(frame) = &row.frame else {
            unreachable!()
        };
        let at = self.entries.at(was.job);
        let had = has_waiting(&self.entries, &at);
        self.entries.recount(&at, was.state, frame.state);
        let has = has_waiting(&self.entries, &at);
        change_ready(&mut self.ready, &self.entries, &at, had, has);
        self.entries
            .mark(&at, was.layer, was.position, frame.state.is_waiting());
        set_row(&mut self.slots, slot, *row);
    }
}

/// What stands in the slot is set.
pub(crate) fn set_row(slots: &mut Vec<SlotRow>, slot: Slot, row: SlotRow)
    requires { slot < length slots.old.items }
    ensures items { slots.new.items ≡ slice_set slots.old.items slot row }
    ensures capacity { vec_capacity slots.new ≡ vec_capacity slots.old }
{
    slots[slot.0 as usize] = row;
}
