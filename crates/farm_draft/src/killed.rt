//! A job that is killed: all that is left of it is eaten.

ghost use Rattle.std.specs.Prelude.{◌≡◌, map, OnOk};
ghost use Rattle.farm_types.specs.Farm.{changed_at};
ghost use Rattle.farm_types.specs.Kept.{KeepsRows};
ghost use Rattle.farm_types.specs.Operators.{is_left_of, killed_row};
ghost use Rattle.farm_draft.specs.Drafted.{with_slots};
ghost use Rattle.farm_draft.specs.InTurn.{changed_each};

use crate::draft::Draft;
use crate::stopped::stopped_row;
use farm_types::{FrameState, JobNo, Slot, SlotRow};
use std::alloc::AllocError;

impl<'a> Draft<'a> {
    /// Each frame of the job that isn't done is eaten, and its attempt ends. The job's own frames are walked, never all slots.
    pub fn kill(&mut self, job: JobNo) -> Result<(), AllocError>
        requires begins { self.old.farm.slots ≡ self.old.base.slots }
        requires kept { KeepsRows self.old.base }
        ensures { OnOk result (self.new ≡ with_slots self.old (map (killed_row job) self.old.farm.slots)) }
    {
        let books = self.books;
        for layer in books.jobs().layers_of(job) {
            self.kill_among(job, books.jobs().layer_slots(job, layer.place))?;
        }
        Ok(())
    }

    // What is left of the job in the slots is eaten.
    fn kill_among(&mut self, job: JobNo, slots: &[Slot]) -> Result<(), AllocError>
        ensures { OnOk result (self.new ≡ with_slots self.old (changed_each (killed_row job) self.old.farm.slots slots.now)) }
    {
        for slot in slots {
            self.kill_one(job, *slot)?;
        }
        Ok(())
    }

    // The frame in the slot is eaten, if it is one of the job that isn't done.
    fn kill_one(&mut self, job: JobNo, slot: Slot) -> Result<(), AllocError>
        ensures { OnOk result (self.new ≡ with_slots self.old (changed_at self.old.farm.slots slot (killed_row job))) }
    {
        let Some(change) = self.slot(slot) else {
            return Ok(());
        };
        if !is_left_of(job, &change.row) {
            return Ok(());
        }
        self.set_slot(
            slot,
            &change.was,
            stopped_row(&change.row, FrameState::Eaten),
        )
    }
}

// Whether the slot has a frame of the job that isn't done.
fn is_left_of(job: JobNo, row: &SlotRow) -> bool
    ensures { result ≡ is_left_of job row.now }
{
    match &row.frame {
        None => false,
        Some(frame) => frame.job == job && !frame.state.is_done(),
    }
}
