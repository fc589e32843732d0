//! How many frames of a job are left, once some are done that weren't.

ghost use Rattle.std.specs.Prelude.{◌≡◌, nat_eq, true, IfOk, OnOk};
ghost use Rattle.indexmap.specs.IndexMap.{get};
ghost use Rattle.depend_graph.specs.Trial.{IsFreed, IsLowered, count_or};
ghost use Rattle.job_book.specs.Book.{has_job};
ghost use Rattle.farm_finish.specs.Closing.{left_in};

use farm_types::JobNo;
use indexmap::IndexMap;
use job_book::Jobs;
use std::alloc::AllocError;

/// A frame of the job is done: one frame fewer is left of it, and the job is listed if that was the last one.
pub(crate) fn count_down(
    jobs: &Jobs,
    left: &mut IndexMap<u32, u64>,
    finished: &mut Vec<JobNo>,
    job: JobNo,
) -> Result<(), AllocError>
    requires { has_job jobs.now job ≡ true }
    ensures { OnOk result (IsFreed job (left_in job jobs.now.slots) (get nat_eq left.old) (get nat_eq left.new) finished.old.items finished.new.items) }
{
    let before = lower(left, job, left_of(jobs, job))?;
    if before == 1 {
        finished.push(job)?;
    }
    Ok(())
}

// How many frames of the job aren't done.
fn left_of(jobs: &Jobs, job: JobNo) -> u64
    requires { has_job jobs.now job ≡ true }
    ensures { result ≡ left_in job jobs.now.slots }
{
    let counts = jobs.counts(job);
    u64::from(counts.waiting)
        + u64::from(counts.setup)
        + u64::from(counts.running)
        + u64::from(counts.depend)
        + u64::from(counts.dead)
}

// One fewer is left of the job from now on: than what is laid there, or than `count` where nothing is. The result is the count before.
fn lower(left: &mut IndexMap<u32, u64>, job: JobNo, count: u64) -> Result<u64, AllocError>
    ensures before { IfOk result (λ before. before ≡ count_or count (get nat_eq left.old job)) }
    ensures lowered { OnOk result (IsLowered job count (get nat_eq left.old) (get nat_eq left.new)) }
{
    let before = count_over(left, job, count);
    left.insert(job.0, before.saturating_sub(1))?;
    Ok(before)
}

// What is laid for the job, or the count where nothing is.
fn count_over(left: &IndexMap<u32, u64>, job: JobNo, count: u64) -> u64
    ensures { result ≡ count_or count (get nat_eq left.now job) }
{
    match left.get(&job.0) {
        None => count,
        Some(laid) => *laid,
    }
}
