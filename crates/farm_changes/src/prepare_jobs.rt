//! Prepares what operators do to whole jobs.

ghost use Rattle.std.specs.Prelude.{◌≡◌, ◌≤◌, map, IfOk};
ghost use Rattle.farm_types.specs.declared.entry.Act.TheVariants as act;
ghost use Rattle.farm_types.specs.Kept.{KeepsRows};
ghost use Rattle.farm_types.specs.Operators.{killed_row};
ghost use Rattle.farm_types.specs.Step.{at_moment};
ghost use Rattle.farm_draft.specs.Rows.{AreReady, installed};
ghost use Rattle.farm_changes.specs.Change.{Prepares};

use crate::change::{Change, More};
use crate::preparing::change_of;
use farm_books::Books;
use farm_draft::{Draft, Rows};
use farm_places::missing;
use farm_types::{Answer, FarmFault, JobNo, Text};
use std::alloc::{AllocError, Global};

/// Prepares that a job is paused, or resumed.
pub(crate) fn prepare_pause(
    alloc: Global,
    books: &Books,
    moment: u64,
    job: &Text,
    paused: bool,
) -> Result<Change, FarmFault>
    requires ahead { books.now.farm.moment ≤ moment }
    ensures { Prepares books.now.farm (record { moment = moment; act = act.Pause job.now paused }) result }
{
    let jobs = books.jobs();
    let Some(job) = jobs.pending(job.as_str()) else {
        return Err(missing(alloc, jobs, job));
    };
    let more = More::Paused { job, paused };
    Ok(change_of(moment, Answer::Paused, Rows::none(alloc), more))
}

/// Prepares that a job is killed: each of its frames that isn't done is eaten, and its attempts end.
pub(crate) fn prepare_kill_job(
    alloc: Global,
    books: &Books,
    moment: u64,
    job: &Text,
) -> Result<Change, FarmFault>
    requires kept { KeepsRows books.now.farm }
    requires ahead { books.now.farm.moment ≤ moment }
    ensures { Prepares books.now.farm (record { moment = moment; act = act.KillJob job.now }) result }
{
    let jobs = books.jobs();
    let Some(job) = jobs.pending(job.as_str()) else {
        return Err(missing(alloc, jobs, job));
    };
    // Exactly the running frames have an attempt.
    let ended = jobs.counts(job).running;
    let rows = killed_rows(alloc, books, moment, job)?;
    let answer = Answer::Ended { ended };
    Ok(change_of(moment, answer, rows, More::Nothing))
}

// The rows of the job's frames that aren't done, eaten.
fn killed_rows(alloc: Global, books: &Books, moment: u64, job: JobNo) -> Result<Rows, AllocError>
    requires kept { KeepsRows books.now.farm }
    ensures farm { IfOk result (λ rows. installed (at_moment books.now.farm moment) rows
        ≡ record (at_moment books.now.farm moment) { slots = map (killed_row job) books.now.farm.slots }) }
    ensures ready { IfOk result (λ rows. AreReady books.now.farm rows) }
{
    let mut draft = Draft::new(alloc, books, moment);
    draft.kill(job)?;
    draft.into_rows(alloc)
}
