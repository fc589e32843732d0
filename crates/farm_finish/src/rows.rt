//! The rows that change where jobs finish.

ghost use Rattle.std.specs.Prelude.{◌≡◌, ◌+◌, ◌++◌, ◌<◌, ◌^◌, true, length, slice_get, All, IfOk, OnOk, Some, nat_eq};
ghost use Rattle.std.specs.List.{list_all};
ghost use Rattle.indexmap.specs.IndexMap.{get};
ghost use Rattle.farm_types.specs.Farm.{Farm};
ghost use Rattle.farm_types.specs.Kept.{EachOnce, is_kept_slot};
ghost use Rattle.farm_types.specs.Step.{finish_each};
ghost use Rattle.farm_rows.specs.Changes.{MakesRows};
ghost use Rattle.depend_law.specs.Ending.{CanEnd};
ghost use Rattle.job_book.specs.Book.{has_job};
ghost use Rattle.job_book.specs.Finished.{finished_of};
ghost use Rattle.farm_draft.specs.Rows.{put_slots};
ghost use Rattle.farm_changes.specs.Change.{Makes, after_change};
ghost use Rattle.farm_books.specs.Books.{IsWhole};
ghost use Rattle.farm_depends.specs.Follow.{Follows, after_follow};
ghost use Rattle.farm_finish.specs.Adding.{AddsJob};
ghost use Rattle.farm_finish.specs.AfterAct.{IsAfter};
ghost use Rattle.farm_finish.specs.Closing.{closing};
ghost use Rattle.farm_finish.specs.Gone.{leaving};
ghost use Rattle.farm_finish.specs.Versions.{AreLaid, AreSet};

use crate::rows_gone::{depends_go, frames_go, job_goes, layers_go};
use crate::rows_job::put_job;
use crate::versions::versions_of;
use depend_book::Depends;
use farm_books::Books;
use farm_changes::Change;
use farm_depends::Follow;
use farm_draft::SlotChange;
use farm_rows::RowChange;
use farm_types::{Entry, JobNo, MOST_FINISHED, Version};
use indexmap::IndexMap;
use job_book::Jobs;
use std::alloc::{AllocError, Global};

/// The rows that change where the jobs finish, each as it will be: of each job in turn its own row, that of the finished job that leaves, and those
/// of its layers, its frames and the depends in which it waits. `change` was prepared for its act, and `follow` is what follows of depends. Only the
/// jobs' own layers, frames and depends are looked at, and the slots that the act sets.
pub fn finish_rows(
    alloc: Global,
    books: &Books,
    entry: &Entry,
    change: &Change,
    follow: &Follow,
    jobs: &[JobNo],
) -> Result<Vec<RowChange>, AllocError>
    requires whole { IsWhole books.now }
    requires made { Makes books.now.farm entry.now change.now }
    requires follows { Follows books.now.farm (after_change books.now.farm change.now) entry.now.act follow.now }
    requires jobs { jobs.now ≡ closing entry.now.act (after_follow (after_change books.now.farm change.now) follow.now) }
    requires ends { CanEnd (after_follow (after_change books.now.farm change.now) follow.now) jobs.now }
    ensures { IfOk result (λ changes. MakesRows (after_follow (after_change books.now.farm change.now) follow.now)
        (finish_each jobs.now (after_follow (after_change books.now.farm change.now) follow.now)) changes.items) }
{
    let _entry = entry;
    let _follow = follow;
    if jobs.is_empty() {
        return Ok(Vec::new(alloc));
    }
    books.kept();
    each_job(
        alloc,
        books.jobs(),
        books.depends(),
        change.slot_rows(),
        jobs,
    )
}

// The rows that change where each of the jobs finishes, once those rows of slots are put in.
fn each_job(
    alloc: Global,
    book: &Jobs,
    depends: &Depends,
    rows: &[SlotChange],
    jobs: &[JobNo],
) -> Result<Vec<RowChange>, AllocError>
    requires rows { AreSet book.now.slots rows.now }
    requires kept { list_all (is_kept_slot book.now.layers) book.now.slots ≡ true }
    requires once { EachOnce book.now.slots }
    requires there { All (λ job. has_job book.now job ≡ true) jobs.now }
    requires number { book.now.next_finish < 2 ^ 32 }
    ensures { IfOk result (λ changes. (f : Farm) → IsAfter book.now (put_slots book.now.slots rows.now) depends.now f → CanEnd f jobs.now
        → MakesRows f (finish_each jobs.now f) changes.items) }
{
    let versions = versions_of(alloc, book, rows)?;
    let mut changes = Vec::new(alloc);
    for place in 0..jobs.len() {
        let turn = turn_at(book, jobs, place);
        add_job(&mut changes, alloc, book, depends, rows, &versions, turn)?;
    }
    Ok(changes)
}

/// A job that finishes with that number, and the finished one that leaves then.
#[derive(Clone, Copy, Debug)]
pub(crate) struct Turn {
    pub(crate) job: JobNo,
    pub(crate) finish: u64,
    pub(crate) gone: Option<JobNo>,
}

// The job at a place, which finishes after those before it.
fn turn_at(book: &Jobs, jobs: &[JobNo], place: usize) -> Turn
    requires within { place < length jobs.now }
    requires number { book.now.next_finish < 2 ^ 32 }
    ensures job { slice_get jobs.now place ≡ Some result.job }
    ensures finish { result.finish ≡ book.now.next_finish + place }
    ensures gone { result.gone ≡ leaving (finished_of book.now.jobs) jobs.now (length (finished_of book.now.jobs) + place + 1) }
{
    let finished = book.finished();
    Turn {
        job: jobs[place],
        finish: book.next_finish() + place as u64,
        gone: leaving(finished, jobs, finished.len() + place + 1),
    }
}

// The finished job that leaves once so many have finished, first those that were and then these in turn.
fn leaving(finished: &[JobNo], jobs: &[JobNo], count: usize) -> Option<JobNo>
    ensures { result ≡ leaving finished.now jobs.now count }
{
    let most = MOST_FINISHED as usize;
    if count <= most {
        return None;
    }
    in_order(finished, jobs, count - most - 1)
}

// The job at a place, first of those that were finished and then of these.
fn in_order(finished: &[JobNo], jobs: &[JobNo], place: usize) -> Option<JobNo>
    ensures { result ≡ slice_get (finished.now ++ jobs.now) place }
{
    let before = finished.len();
    if place < before {
        return job_at(finished, place);
    }
    job_at(jobs, place - before)
}

// The job at a place.
fn job_at(jobs: &[JobNo], place: usize) -> Option<JobNo>
    ensures { result ≡ slice_get jobs.now place }
{
    jobs.get(place).copied()
}

// The changes of the rows of one job.
fn add_job(
    changes: &mut Vec<RowChange>,
    alloc: Global,
    book: &Jobs,
    depends: &Depends,
    rows: &[SlotChange],
    versions: &IndexMap<u32, Version>,
    turn: Turn,
) -> Result<(), AllocError>
    requires rows { AreSet book.now.slots rows.now }
    requires kept { list_all (is_kept_slot book.now.layers) book.now.slots ≡ true }
    requires once { EachOnce book.now.slots }
    requires laid { AreLaid book.now.slots rows.now (get nat_eq versions.now) }
    requires there { has_job book.now turn.job ≡ true }
    ensures { OnOk result (AddsJob book.now (put_slots book.now.slots rows.now) depends.now
        turn.finish turn.gone turn.job changes.old.items changes.new.items) }
{
    put_job(changes, alloc, book, rows, turn.job, turn.finish)?;
    job_goes(changes, turn.gone)?;
    layers_go(changes, turn.job, book.layers_of(turn.job))?;
    frames_go(changes, book, versions, turn.job)?;
    depends_go(changes, alloc, depends, turn.job)?;
    Ok(())
}
