//! The row of a job that finishes.

ghost use Rattle.std.specs.Prelude.{◌≡◌, ◌==◌, ◌++◌, ◌∷◌, [], if◌then◌else◌, true, find, IfOk, OnOk, Some};
ghost use Rattle.farm_types.specs.declared.rows.JobRow.{JobRow};
ghost use Rattle.farm_types.specs.declared.states.JobState.TheVariants as job_state;
ghost use Rattle.farm_types.specs.Finish.{has_succeeded, was_eaten};
ghost use Rattle.farm_draft.specs.Rows.{put_slots};
ghost use Rattle.job_book.specs.Book.{has_job};
ghost use Rattle.farm_finish.specs.Gone.{job_put};
ghost use Rattle.farm_finish.specs.Versions.{AreSet, CanMove, done_in, moved_done};

use farm_draft::SlotChange;
use farm_rows::{FarmRow, RowChange};
use farm_types::{FrameState, JobNo, JobRow, JobState, SlotRow};
use job_book::Jobs;
use std::alloc::{AllocError, Global};

/// How many frames of a job were eaten, and how many succeeded.
#[derive(Clone, Copy, Debug)]
pub(crate) struct Done {
    pub(crate) eaten: u32,
    pub(crate) succeeded: u32,
}

/// The job's row is put in, finished with that number, as the rows of slots leave its frames.
pub(crate) fn put_job(
    changes: &mut Vec<RowChange>,
    alloc: Global,
    book: &Jobs,
    rows: &[SlotChange],
    job: JobNo,
    finish: u64,
) -> Result<(), AllocError>
    requires rows { AreSet book.now.slots rows.now }
    requires there { has_job book.now job ≡ true }
    ensures { OnOk result ((j : JobRow) → find (λ k. k.job == job) book.now.jobs ≡ Some j → changes.new.items ≡ changes.old.items
        ++ job_put (put_slots book.now.slots rows.now) finish j) }
{
    let done = done_after(book, rows, job);
    let old = row_of(book, job);
    let row = finished(alloc, old, finish, done)?;
    changes.push(RowChange::Put(FarmRow::Job(row)))?;
    Ok(())
}

// The job's row.
fn row_of(book: &Jobs, job: JobNo) -> &JobRow
    requires { has_job book.now job ≡ true }
    ensures { Some result.now ≡ find (λ j. j.job == job) book.now.jobs }
{
    let Some(row) = book.job(job) else {
        unreachable!()
    };
    row
}

// The job's row, finished with that number and those counts.
fn finished(alloc: Global, row: &JobRow, finish: u64, done: Done) -> Result<JobRow, AllocError>
    ensures { IfOk result (λ j. j ≡ record row.now { state = job_state.Finished; finish = finish; eaten = done.eaten; succeeded = done.succeeded }) }
{
    let mut finished = row.copy(alloc)?;
    finished.state = JobState::Finished;
    finished.finish = finish;
    finished.eaten = done.eaten;
    finished.succeeded = done.succeeded;
    Ok(finished)
}

// How many frames of the job are done once the rows are put in.
fn done_after(book: &Jobs, rows: &[SlotChange], job: JobNo) -> Done
    requires rows { AreSet book.now.slots rows.now }
    requires there { has_job book.now job ≡ true }
    ensures { result ≡ done_in job (put_slots book.now.slots rows.now) }
{
    // There are at most 65,536 slots, so that their frames can be counted.
    let _slots = book.slots();
    let mut done = done_before(book, job);
    for change in rows {
        done = moved_by(done, change, job);
    }
    done
}

// How many frames of the job are done before.
fn done_before(book: &Jobs, job: JobNo) -> Done
    requires { has_job book.now job ≡ true }
    ensures { result ≡ done_in job book.now.slots }
{
    let counts = book.counts(job);
    Done {
        eaten: counts.eaten,
        succeeded: counts.succeeded,
    }
}

// The counts once the slot has its row.
fn moved_by(done: Done, change: &SlotChange, job: JobNo) -> Done
    requires { CanMove done (done_in job (change.now.was ∷ [])) (done_in job (change.now.row ∷ [])) }
    ensures { result ≡ moved_done done (done_in job (change.now.was ∷ [])) (done_in job (change.now.row ∷ [])) }
{
    let old = done_of(&change.was, job);
    let new = done_of(&change.row, job);
    moved(done, old, new)
}

// The counts with one slot's changed.
fn moved(done: Done, old: Done, new: Done) -> Done
    requires { CanMove done old new }
    ensures { result ≡ moved_done done old new }
{
    Done {
        eaten: done.eaten - old.eaten + new.eaten,
        succeeded: done.succeeded - old.succeeded + new.succeeded,
    }
}

// What the slot adds to the counts of the job.
fn done_of(row: &SlotRow, job: JobNo) -> Done
    ensures { result ≡ done_in job (row.now ∷ []) }
{
    match &row.frame {
        None => Done {
            eaten: 0,
            succeeded: 0,
        },
        Some(frame) => {
            if frame.job == job {
                done_by(frame.state)
            } else {
                Done {
                    eaten: 0,
                    succeeded: 0,
                }
            }
        }
    }
}

// What a frame in the state adds.
fn done_by(state: FrameState) -> Done
    ensures eaten { result.eaten ≡ (if was_eaten state then 1 else 0) }
    ensures succeeded { result.succeeded ≡ (if has_succeeded state then 1 else 0) }
{
    match state {
        FrameState::Eaten => Done {
            eaten: 1,
            succeeded: 0,
        },
        FrameState::Succeeded => Done {
            eaten: 0,
            succeeded: 1,
        },
        _ => Done {
            eaten: 0,
            succeeded: 0,
        },
    }
}
