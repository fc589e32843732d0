//! Which jobs are ready: those that have a waiting frame.

ghost use Rattle.std.specs.Prelude.{ℕ, List, ◌≡◌, ◌==◌, find, ◌≤◌, ◌+◌, ◌*◌, [], length, nat_lt, slice_get, true, IfOk, Some};
ghost use Rattle.farm_types.specs.Farm.{changed_at, for_some};
ghost use Rattle.farm_types.specs.declared.limits.TheConstants.{MOST_PRIORITY, MOST_SHOWS};
ghost use Rattle.job_index.specs.declared.ready_jobs.TheConstants.{JOB_NUMBERS};
ghost use Rattle.job_entries.specs.Entries.{IsAt, counts_in};
ghost use Rattle.job_book.specs.Ready.{CanBeReady, CanChange, changed_ready, has_priority, jobs_in, ready_key};
ghost use Rattle.job_index.specs.Keys.{drop_key, put_key};

use farm_types::{JobNo, JobRow, MOST_PRIORITY, MOST_SHOWS};
use job_entries::{At, Entries};
use job_index::{JOB_NUMBERS, ReadyJobs};
use std::alloc::{AllocError, Global};

/// A list for each show, in which there is no job.
pub(crate) fn no_ready(alloc: Global) -> Result<Vec<ReadyJobs>, AllocError>
    ensures count { IfOk result (λ ready. length ready.items ≡ MOST_SHOWS) }
    ensures none { IfOk result (λ ready. (show : ℕ) (ks : List ℕ) → slice_get ready.items show ≡ Some ks → ks ≡ []) }
{
    let mut ready = Vec::new(alloc);
    for _show in 0..MOST_SHOWS {
        ready.push(ReadyJobs::make(alloc)?)?;
    }
    Ok(ready)
}

/// Equal lists.
pub(crate) fn copy_ready(alloc: Global, ready: &[ReadyJobs]) -> Result<Vec<ReadyJobs>, AllocError>
    ensures { IfOk result (λ copies. copies.items ≡ ready.now) }
{
    let mut copies = Vec::new(alloc);
    for jobs in ready {
        copies.push(jobs.copy(alloc)?)?;
    }
    Ok(copies)
}

/// The jobs of the list at a place, none past the last list.
pub(crate) fn jobs_in(ready: &[ReadyJobs], show: usize) -> &[JobNo]
    ensures { result.now ≡ jobs_in (slice_get ready.now show) }
{
    match ready.get(show) {
        None => &[],
        Some(jobs) => jobs.jobs(),
    }
}

/// Whether a frame of the job at a place waits, as its counts say.
pub(crate) fn has_waiting(entries: &Entries, at: &At) -> bool
    requires { IsAt at.now entries.now.numbers }
    ensures { result ≡ for_some (counts_in at.now.job entries.now) (λ c. nat_lt 0 c.waiting) }
{
    match entries.counts_at(at) {
        None => false,
        Some(counts) => counts.waiting > 0,
    }
}

/// The job at a place had a waiting frame or none, and has one now or none.
pub(crate) fn change_ready(
    ready: &mut Vec<ReadyJobs>,
    entries: &Entries,
    at: &At,
    had: bool,
    has: bool,
)
    requires at { IsAt at.now entries.now.numbers }
    requires can { CanChange had has ready.old.items (find (λ j. j.job == at.now.job) entries.now.rows) }
    ensures { ready.new.items ≡ changed_ready had has ready.old.items (find (λ j. j.job == at.now.job) entries.now.rows) }
{
    let Some(row) = entries.row_at(at) else {
        return;
    };
    change_job(ready, row, had, has);
}

// The job had a waiting frame or none, and has one now or none.
fn change_job(ready: &mut Vec<ReadyJobs>, job: &JobRow, had: bool, has: bool)
    requires { CanChange had has ready.old.items (Some job.now) }
    ensures { ready.new.items ≡ changed_ready had has ready.old.items (Some job.now) }
{
    match (had, has) {
        (false, true) => put_ready(ready, job),
        (true, false) => take_ready(ready, job),
        (false, false) | (true, true) => {}
    }
}

/// The job goes to its place among the ready ones of its show. A show past the last has no list.
pub(crate) fn put_ready(ready: &mut Vec<ReadyJobs>, job: &JobRow)
    requires priority { has_priority job.now ≡ true }
    requires can { CanBeReady job.now ready.old.items }
    ensures { ready.new.items ≡ changed_at ready.old.items job.now.show (put_key (ready_key job.now)) }
{
    let show = job.show.0 as usize;
    if show < ready.len() {
        ready[show].put(ready_key(job));
    }
}

// The job is taken out of the ready ones of its show.
fn take_ready(ready: &mut Vec<ReadyJobs>, job: &JobRow)
    requires { has_priority job.now ≡ true }
    ensures { ready.new.items ≡ changed_at ready.old.items job.now.show (drop_key (ready_key job.now)) }
{
    let show = job.show.0 as usize;
    if show < ready.len() {
        ready[show].take(ready_key(job));
    }
}

/// The key by which ready jobs are in order.
pub(crate) fn ready_key(job: &JobRow) -> u64
    requires { has_priority job.now ≡ true }
    ensures { result ≡ ready_key job.now }
{
    key_from(MOST_PRIORITY - job.priority, job.job.0)
}

// The key of a job that is so far below the highest priority.
fn key_from(below: u32, job: u32) -> u64
    requires { below ≤ MOST_PRIORITY }
    ensures { result ≡ below * JOB_NUMBERS + job }
{
    u64::from(below) * JOB_NUMBERS + u64::from(job)
}
