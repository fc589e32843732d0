//! Prepares which jobs finish with an entry.

ghost use Rattle.std.specs.Prelude.{◌≡◌, All, IfOk};
ghost use Rattle.farm_types.specs.Rising.{IsRising, job_key};
ghost use Rattle.farm_changes.specs.Change.{Makes, after_change};
ghost use Rattle.farm_types.specs.Step.{finishing};
ghost use Rattle.farm_draft.specs.Rows.{Stood};
ghost use Rattle.farm_depends.specs.Completing.{IsCompleting, newly_done};
ghost use Rattle.farm_books.specs.Books.{IsWhole};
ghost use Rattle.farm_depends.specs.Follow.{Follows, after_follow};
ghost use Rattle.farm_finish.specs.Closing.{HasItsJob, closing, finished_by, job_of};

use crate::counting::count_down;
use farm_books::Books;
use farm_changes::Change;
use farm_depends::{Follow, completes};
use farm_draft::SlotChange;
use farm_types::{Act, Entry, Items, JobNo};
use indexmap::IndexMap;
use job_book::Jobs;
use std::alloc::{AllocError, Global};

/// The jobs that finish with the entry, in the order of their numbers. `change` was prepared for its act, and `follow` is what follows of depends. Only
/// jobs with a frame that is done now can finish.
pub fn prepare_finish(
    alloc: Global,
    books: &Books,
    entry: &Entry,
    change: &Change,
    follow: &Follow,
) -> Result<Items<JobNo>, AllocError>
    requires whole { IsWhole books.now }
    requires made { Makes books.now.farm entry.now change.now }
    requires follows { Follows books.now.farm (after_change books.now.farm change.now) entry.now.act follow.now }
    ensures { IfOk result (λ jobs. jobs ≡ closing entry.now.act (after_follow (after_change books.now.farm change.now) follow.now)) }
{
    match &entry.act {
        Act::Heard(_) => completed(alloc, books, entry, change, follow),
        Act::KillJob { .. } => completed(alloc, books, entry, change, follow),
        Act::EatFrame(_) => completed(alloc, books, entry, change, follow),
        _ => Ok(Items::new(alloc)),
    }
}

// The jobs that finish with an entry that may complete frames.
fn completed(
    alloc: Global,
    books: &Books,
    entry: &Entry,
    change: &Change,
    follow: &Follow,
) -> Result<Items<JobNo>, AllocError>
    requires whole { IsWhole books.now }
    requires made { Makes books.now.farm entry.now change.now }
    requires follows { Follows books.now.farm (after_change books.now.farm change.now) entry.now.act follow.now }
    requires completing { IsCompleting entry.now.act }
    ensures { IfOk result (λ jobs. jobs ≡ finishing (after_follow (after_change books.now.farm change.now) follow.now)) }
{
    let _follow = follow;
    finished_by(alloc, books.jobs(), change.slot_rows())
}

// The jobs of which no frame is left once the changes have completed frames, in the order of their numbers.
fn finished_by(alloc: Global, jobs: &Jobs, rows: &[SlotChange]) -> Result<Items<JobNo>, AllocError>
    requires rise { IsRising job_key 1 jobs.now.jobs jobs.now.next_job }
    requires stood { All (Stood jobs.now.slots) rows.now }
    requires there { All (HasItsJob jobs.now) (newly_done rows.now) }
    ensures { IfOk result (λ finished. finished ≡ finished_by jobs.now (newly_done rows.now)) }
{
    let mut left = IndexMap::new(alloc);
    let mut finished = Vec::new(alloc);
    for change in rows {
        if !completes(change) {
            continue;
        }
        count_down(jobs, &mut left, &mut finished, job_of(change))?;
    }
    finished.sort_unstable();
    Ok(Items::from_vec(finished))
}

// The job of the frame that stands in the slot, 0 where there is none.
fn job_of(change: &SlotChange) -> JobNo
    ensures { result ≡ job_of change.now.was.frame }
{
    match &change.was.frame {
        None => JobNo(0),
        Some(frame) => frame.job,
    }
}
