//! Slots of a job that finishes become free.

ghost use Rattle.std.specs.Prelude.{◌≡◌, ◌≤◌, ◌<◌, ◌+◌, if◌then◌else◌, length, map, min};
ghost use Rattle.std.specs.Vec.{vec_capacity};
ghost use Rattle.farm_types.specs.Farm.{changed_at};
ghost use Rattle.farm_types.specs.Finish.{freed_row, is_frame_of};
ghost use Rattle.farm_types.specs.Jobs.{is_free};
ghost use Rattle.farm_types.specs.declared.limits.TheConstants.{SLOT_LIMIT};
ghost use Rattle.job_book.specs.Freed.{freed_all, freed_at, without_frame};
ghost use Rattle.job_book.specs.Inside.{KeepsFree};
ghost use Rattle.job_book.specs.Layers.{slots_of};

use crate::change::set_row;
use crate::placement::put::{is_free, row_at};
use farm_types::{JobNo, Slot, SlotRow};
use job_index::LayerFrames;

/// How many slots are free, and a slot below which none is.
#[derive(Clone, Copy)]
pub(crate) struct Free {
    pub(crate) count: u32,
    pub(crate) lowest: u32,
}

/// The slots of a job's layers become free.
pub(crate) fn free_layers(
    slots: &mut Vec<SlotRow>,
    index: &[LayerFrames],
    job: JobNo,
    free: Free,
) -> Free
    requires free { KeepsFree free.count free.lowest slots.old.items }
    requires slot_count { length slots.old.items ≤ SLOT_LIMIT }
    ensures slots { slots.new.items ≡ freed_all job (map slots_of index.now) slots.old.items }
    ensures free { KeepsFree result.count result.lowest slots.new.items }
    ensures slot_count { length slots.new.items ≡ length slots.old.items }
    ensures capacity { vec_capacity slots.new ≡ vec_capacity slots.old }
{
    let mut so_far = free;
    for layer in index {
        so_far = free_slots(slots, layer.slots(), job, so_far);
    }
    so_far
}

// The slots with a frame of the job become free.
fn free_slots(slots: &mut Vec<SlotRow>, places: &[Slot], job: JobNo, free: Free) -> Free
    requires free { KeepsFree free.count free.lowest slots.old.items }
    requires slot_count { length slots.old.items ≤ SLOT_LIMIT }
    ensures slots { slots.new.items ≡ freed_at job places.now slots.old.items }
    ensures free { KeepsFree result.count result.lowest slots.new.items }
    ensures slot_count { length slots.new.items ≡ length slots.old.items }
    ensures capacity { vec_capacity slots.new ≡ vec_capacity slots.old }
{
    let mut so_far = free;
    for place in places {
        so_far = free_slot(slots, *place, job, so_far);
    }
    so_far
}

// A slot with a frame of the job becomes free.
fn free_slot(slots: &mut Vec<SlotRow>, slot: Slot, job: JobNo, free: Free) -> Free
    requires free { KeepsFree free.count free.lowest slots.old.items }
    requires slot_count { length slots.old.items ≤ SLOT_LIMIT }
    ensures slots { slots.new.items ≡ changed_at slots.old.items slot (freed_row job) }
    ensures free { KeepsFree result.count result.lowest slots.new.items }
    ensures slot_count { length slots.new.items ≡ length slots.old.items }
    ensures capacity { vec_capacity slots.new ≡ vec_capacity slots.old }
{
    let Some(row) = row_at(slots.as_slice(), slot.0 as usize) else {
        return free;
    };
    if !is_of(&row, job) {
        return free;
    }
    let freed = freed_row(&row);
    set_row(slots, slot, freed);
    with_free(free, slot, &freed)
}

// One more slot is free, where the freed one is.
fn with_free(free: Free, slot: Slot, freed: &SlotRow) -> Free
    requires { free.count < SLOT_LIMIT }
    ensures { result ≡ if is_free freed.now then record { count = free.count + 1; lowest = min free.lowest slot } else free }
{
    if is_free(freed) {
        return Free {
            count: free.count + 1,
            lowest: free.lowest.min(slot.0),
        };
    }
    free
}

// Whether the slot has a frame of the job.
fn is_of(row: &SlotRow, job: JobNo) -> bool
    ensures { result ≡ is_frame_of job row.now }
{
    match &row.frame {
        None => false,
        Some(frame) => frame.job == job,
    }
}

// The slot without its frame, one version later.
fn freed_row(row: &SlotRow) -> SlotRow
    ensures { result ≡ without_frame row.now }
{
    SlotRow {
        version: row.version.next(),
        frame: None,
        proc: None,
    }
}
