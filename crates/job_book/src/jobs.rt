//! The book: jobs, layers and slots.

ghost use Rattle.std.specs.Prelude.{◌≡◌, IfOk};
ghost use Rattle.job_book.specs.Book.{no_jobs};

use crate::reading::ready::no_ready;
use farm_types::{SLOT_LIMIT, SlotRow};
use job_entries::Entries;
use job_index::{JobNames, ReadyJobs};
use std::alloc::{AllocError, Global};
use std::marker::Model;

/// A layer's place in its job is below this, so that a job's number and a place make one key.
pub(crate) const PLACE_LIMIT: u64 = 4_294_967_296;

/// The jobs with their layers, in the order of their numbers, and the frame slots, up to the last that was ever used.
/// Beside them are kept the jobs' names, the finished jobs in the order of their finish, each show's ready jobs, how many slots
/// are free, those that were never used too, a slot below which none is free, and the number of the next finish.
#[derive(Debug, Drop)]
pub struct Jobs {
    pub(crate) entries: Entries,
    pub(crate) names: JobNames,
    pub(crate) finished: ReadyJobs,
    pub(crate) slots: Vec<SlotRow>,
    pub(crate) ready: Vec<ReadyJobs>,
    pub(crate) free: u32,
    pub(crate) lowest: u32,
    pub(crate) next_finish: u64,
}

impl Model for Jobs {
    ghost use Rattle.farm_types.specs.Jobs as types;

    ghost Value = { types.JobLists };

    ghost use Rattle.job_book.specs.Inside.{book_of, KeepsBook};

    ghost view = { book_of };

    ghost invariant = { KeepsBook };
}

impl Jobs {
    /// The book of no jobs. It takes the memory of all slots and jobs at once: each pending job takes a slot at least.
    pub fn make(alloc: Global) -> Result<Jobs, AllocError>
        ensures { IfOk result (λ b. b ≡ no_jobs) }
    {
        Ok(Jobs {
            entries: Entries::make(alloc)?,
            names: JobNames::make(alloc)?,
            finished: ReadyJobs::make(alloc)?,
            slots: Vec::with_capacity(alloc, SLOT_LIMIT as usize)?,
            ready: no_ready(alloc)?,
            free: SLOT_LIMIT,
            lowest: 0,
            next_finish: 1,
        })
    }
}
