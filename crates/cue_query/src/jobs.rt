//! The list of jobs.

ghost use Rattle.std.specs.Prelude.{◌≡◌, ◌<◌, ◌^◌, map, option_map, IfOk, OnOk, Some};
ghost use Rattle.farm_types.specs.Farm.{job_at};
ghost use Rattle.farm_types.specs.Rising.{job_key};
ghost use Rattle.farm_lines.specs.Lists.{job_row};
ghost use Rattle.cue_query.specs.Counts.{job_counts};
ghost use Rattle.cue_query.specs.Pages.{offered_all};
ghost use Rattle.cue_query.specs.Queries.{rows_if};

use crate::names::show_name;
use crate::page::Page;
use farm_core::Farm;
use farm_lines::{ListRow, ShownJob};
use farm_types::{JobNo, JobRow, JobState};
use job_book::Counts;
use std::alloc::{AllocError, Global};

/// Lists the jobs on the page, in the order of their numbers. A job is looked up only where it stands on the page.
pub(crate) fn list_jobs(alloc: Global, farm: &Farm, page: &mut Page) -> Result<(), AllocError>
    requires { page.old.seen ≡ 0 }
    ensures { OnOk result (page.new ≡ offered_all page.old (map (job_row farm.now) farm.now.jobs)) }
{
    farm.kept();
    let all = numbers_of(alloc, farm)?;
    let numbers = all.as_slice();
    let count = numbers.len();
    let mut place = page.next_row(0, count);
    while place < count {
        list_job(alloc, farm, &numbers[place], page)?;
        place = page.next_row(place + 1, count);
    }
    Ok(())
}

// The numbers of the jobs, in order.
fn numbers_of(alloc: Global, farm: &Farm) -> Result<Vec<JobNo>, AllocError>
    ensures { IfOk result (λ numbers. numbers.items ≡ map job_key farm.now.jobs) }
{
    farm.books().jobs().numbers(alloc)
}

// Lists the job of that number, if there is one.
fn list_job(alloc: Global, farm: &Farm, number: &JobNo, page: &mut Page) -> Result<(), AllocError>
    requires { page.old.seen < 2 ^ 63 }
    ensures { OnOk result (page.new ≡ offered_all page.old (rows_if (option_map (job_row farm.now) (job_at farm.now number.now)))) }
{
    let Some(job) = farm.books().job(*number) else {
        return Ok(());
    };
    if !page.takes_next() {
        page.pass();
        return Ok(());
    }
    let row = shown(alloc, farm, job)?;
    page.push(row)
}

// What is shown of a job.
fn shown(alloc: Global, farm: &Farm, job: &JobRow) -> Result<ListRow, AllocError>
    requires { job_at farm.now job.now.job ≡ Some job.now }
    ensures { IfOk result (λ row. row ≡ job_row farm.now job.now) }
{
    let counts = counts_of(farm, job);
    Ok(ListRow::Job(ShownJob {
        dead: counts.dead,
        depend: counts.depend,
        eaten: counts.eaten,
        name: job.name.copy(alloc)?,
        paused: job.paused,
        priority: job.priority,
        running: counts.running,
        show: show_name(alloc, farm, job.show)?,
        state: job.state,
        succeeded: counts.succeeded,
        waiting: counts.waiting,
    }))
}

// How many frames of a job are in each state. A finished one has none left, and how many succeeded and were eaten is kept of it.
fn counts_of(farm: &Farm, job: &JobRow) -> Counts
    requires { job_at farm.now job.now.job ≡ Some job.now }
    ensures { result ≡ job_counts farm.now job.now }
{
    match job.state {
        JobState::Pending => farm.books().jobs().counts(job.job),
        JobState::Finished => Counts {
            waiting: 0,
            setup: 0,
            running: 0,
            succeeded: job.succeeded,
            depend: 0,
            dead: 0,
            eaten: job.eaten,
        },
    }
}
