//! The book of rows that are given.

ghost use Rattle.std.specs.Prelude.{◌≡◌, ◌≤◌, length, IfOk};
ghost use Rattle.std.specs.Vec.{vec_capacity};
ghost use Rattle.farm_types.specs.Jobs.{free_in};
ghost use Rattle.farm_types.specs.Kept.{KeepsJobs};
ghost use Rattle.farm_types.specs.declared.limits.TheConstants.{MOST_SHOWS, SLOT_LIMIT};
ghost use Rattle.job_book.specs.Restored.{lists_in};

use crate::jobs::Jobs;
use crate::placement::put::is_free;
use crate::restoring::counts::counts_in;
use crate::restoring::keys::{finished_of, names_of, ready_lists};
use farm_types::{JobRow, LayerRow, SLOT_LIMIT, SlotRow};
use job_entries::{entries_of, index_of};
use std::alloc::{AllocError, Global};

impl Jobs {
    /// The book of these rows, with the memory of an empty one: jobs and layers in the order of their numbers, and the slots up
    /// to the last that was ever used. It keeps the rows that it is given, and copies no text but the jobs' names. It walks each
    /// list once, and looks each frame's job and layer up by binary search.
    pub fn of_rows(
        alloc: Global,
        jobs: Vec<JobRow>,
        layers: Vec<LayerRow>,
        slots: Vec<SlotRow>,
        next_job: u64,
        next_finish: u64,
    ) -> Result<Jobs, AllocError>
        requires { KeepsJobs (lists_in jobs.items layers.items slots.items next_job next_finish) MOST_SHOWS }
        ensures { IfOk result (λ b. b ≡ lists_in jobs.items layers.items slots.items next_job next_finish) }
    {
        let counts = counts_in(alloc, jobs.as_slice(), slots.as_slice())?;
        let index = index_of(alloc, layers.as_slice(), slots.as_slice())?;
        let names = names_of(alloc, jobs.as_slice())?;
        let finished = finished_of(alloc, jobs.as_slice())?;
        let ready = ready_lists(alloc, jobs.as_slice(), counts.as_slice())?;
        let free = count_free(slots.as_slice());
        Ok(Jobs {
            entries: entries_of(alloc, jobs, counts.as_slice(), layers, index, next_job)?,
            names,
            finished,
            slots: with_room(slots)?,
            ready,
            free,
            lowest: 0,
            next_finish,
        })
    }
}

// The slots, with capacity for all that there can be.
fn with_room(slots: Vec<SlotRow>) -> Result<Vec<SlotRow>, AllocError>
    requires { length slots.items ≤ SLOT_LIMIT }
    ensures items { IfOk result (λ all. all.items ≡ slots.items) }
    ensures capacity { IfOk result (λ all. SLOT_LIMIT ≤ vec_capacity all) }
{
    let mut all = slots;
    let more = SLOT_LIMIT as usize - all.len();
    all.reserve(more)?;
    Ok(all)
}

// How many slots are free, those that were never used too.
fn count_free(slots: &[SlotRow]) -> u32
    requires { length slots.now ≤ SLOT_LIMIT }
    ensures { result ≡ free_in slots.now }
{
    let mut free = SLOT_LIMIT - slots.len() as u32;
    for row in slots {
        if is_free(row) {
            free += 1;
        }
    }
    free
}
