//! The names of jobs whose rows are given, and the keys of the finished and of the ready ones.

ghost use Rattle.std.specs.Prelude.{ℕ, List, ◌≡◌, ◌<◌, ◌≤◌, filter, length, map, slice_get, true, Some, IfOk, OnOk};
ghost use Rattle.std.specs.List.{list_all};
ghost use Rattle.farm_types.specs.Finish.{is_finished};
ghost use Rattle.farm_types.specs.Kept.{AllDiffer, job_label};
ghost use Rattle.farm_types.specs.Rising.{IsRising, job_key};
ghost use Rattle.farm_types.specs.declared.limits.TheConstants.{MOST_SHOWS};
ghost use Rattle.job_index.specs.declared.limits.TheConstants.{MOST_JOBS};
ghost use Rattle.job_index.specs.declared.ready_jobs.TheConstants.{JOB_NUMBERS};
ghost use Rattle.job_book.specs.Finished.{finish_key, has_finish};
ghost use Rattle.job_book.specs.Names.{KeepsNames};
ghost use Rattle.job_book.specs.Ready.{has_priority};
ghost use Rattle.job_index.specs.Keys.{sorted, AreKeys};
ghost use Rattle.job_book.specs.Restored.{AreBeside, AreSorted, with_ready};

use crate::ending::leave::finish_key;
use crate::reading::ready::ready_key;
use crate::restoring::counts::counts_at;
use farm_types::{Items, JobRow, MOST_SHOWS};
use job_entries::Counts;
use job_index::{JobNames, ReadyJobs};
use std::alloc::{AllocError, Global};

/// The names of these jobs, each of which is copied.
pub(crate) fn names_of(alloc: Global, rows: &[JobRow]) -> Result<JobNames, AllocError>
    requires differ { AllDiffer job_label rows.now }
    requires few { length rows.now ≤ MOST_JOBS }
    ensures { IfOk result (λ names. KeepsNames names.pairs rows.now) }
{
    let mut names = JobNames::make(alloc)?;
    for row in rows {
        names.reserve()?;
        names.add(String::from_str(alloc, row.name.as_str())?, row.job);
    }
    Ok(names)
}

/// The finished ones of these jobs, in the order of their finish.
pub(crate) fn finished_of(alloc: Global, rows: &[JobRow]) -> Result<ReadyJobs, AllocError>
    requires rise { IsRising job_key 0 rows.now JOB_NUMBERS }
    requires within { list_all has_finish rows.now ≡ true }
    ensures { IfOk result (λ finished. finished ≡ sorted (map finish_key (filter is_finished rows.now))) }
{
    let keys = finished_keys(alloc, rows)?;
    ReadyJobs::of_keys(alloc, keys)
}

// The keys of the finished jobs.
fn finished_keys(alloc: Global, rows: &[JobRow]) -> Result<Vec<u64>, AllocError>
    requires { list_all has_finish rows.now ≡ true }
    ensures { IfOk result (λ keys. keys.items ≡ map finish_key (filter is_finished rows.now)) }
{
    let mut keys = Vec::new(alloc);
    for row in rows {
        if !is_finished(row) {
            continue;
        }
        keys.push(finish_key(row))?;
    }
    Ok(keys)
}

// Whether the job is finished.
fn is_finished(row: &JobRow) -> bool
    ensures { result ≡ is_finished row.now }
{
    !row.state.is_pending()
}

/// Each show's ready jobs, where these are all jobs and their counts.
pub(crate) fn ready_lists(
    alloc: Global,
    rows: &[JobRow],
    counts: &[Counts],
) -> Result<Vec<ReadyJobs>, AllocError>
    requires rise { IsRising job_key 0 rows.now JOB_NUMBERS }
    requires priorities { list_all has_priority rows.now ≡ true }
    requires counts { length counts.now ≡ length rows.now }
    ensures count { IfOk result (λ ready. length ready.items ≡ MOST_SHOWS) }
    ensures keys { IfOk result (λ ready. AreSorted rows.now counts.now ready.items) }
{
    let lists = key_lists(alloc, rows, counts)?;
    in_order(alloc, lists)
}

// The keys of each show's ready jobs, in the order of their numbers.
fn key_lists(
    alloc: Global,
    rows: &[JobRow],
    counts: &[Counts],
) -> Result<Vec<Items<u64>>, AllocError>
    requires priorities { list_all has_priority rows.now ≡ true }
    requires counts { length counts.now ≡ length rows.now }
    ensures count { IfOk result (λ lists. length lists.items ≡ MOST_SHOWS) }
    ensures keys { IfOk result (λ lists. AreBeside rows.now counts.now lists.items) }
{
    let mut lists = no_keys(alloc)?;
    for (at, row) in rows.iter().enumerate() {
        add_ready(&mut lists, row, counts_at(counts, at))?;
    }
    Ok(lists)
}

// A list for each show, in which there is no key.
fn no_keys(alloc: Global) -> Result<Vec<Items<u64>>, AllocError>
    ensures count { IfOk result (λ lists. length lists.items ≡ MOST_SHOWS) }
    ensures none { IfOk result (λ lists. (show : ℕ) (ks : List ℕ) → slice_get lists.items show ≡ Some ks → length ks ≡ 0) }
{
    let mut lists = Vec::new(alloc);
    for _show in 0..MOST_SHOWS {
        lists.push(Items::new(alloc))?;
    }
    Ok(lists)
}

// The job's key is put to those of its show, where the job is ready.
fn add_ready(lists: &mut Vec<Items<u64>>, row: &JobRow, counts: &Counts) -> Result<(), AllocError>
    requires { has_priority row.now ≡ true }
    ensures { OnOk result (lists.new.items ≡ with_ready row.now counts.now lists.old.items) }
{
    if is_finished(row) || counts.waiting == 0 {
        return Ok(());
    }
    let show = row.show.0 as usize;
    if show < lists.len() {
        lists[show].push(ready_key(row))?;
    }
    Ok(())
}

// The lists of keys, each in order.
fn in_order(alloc: Global, lists: Vec<Items<u64>>) -> Result<Vec<ReadyJobs>, AllocError>
    requires { (show : ℕ) (ks : List ℕ) → slice_get lists.items show ≡ Some ks → AreKeys ks }
    ensures { IfOk result (λ ready. ready.items ≡ map sorted lists.items) }
{
    let mut ready = Vec::with_capacity(alloc, lists.len())?;
    for keys in lists {
        ready.push(ReadyJobs::of_keys(alloc, keys.into_vec())?)?;
    }
    Ok(ready)
}
