//! Rows of jobs.

ghost use Rattle.std.specs.Prelude.{◌≡◌, ◌==◌, ◌-◌, true, false, IfOk, OnOk, bytes_eq, filter, length};
ghost use Rattle.std.specs.List.{list_any};
ghost use Rattle.farm_types.specs.declared.rows.JobRow.{JobRow};
ghost use Rattle.farm_types.specs.Booking.{is_pending};
ghost use Rattle.farm_types.specs.Finish.{is_finished};
ghost use Rattle.farm_types.specs.Forms.{is_between};
ghost use Rattle.farm_types.specs.Kept.{has_its_counts, has_its_finish, job_label};
ghost use Rattle.farm_rows.specs.declared.farm_row.FarmRow.TheVariants as kind;
ghost use Rattle.farm_rows.specs.Recovery.{comes_after, end_fits, job_fits, key_of};
ghost use Rattle.stored_rows.specs.Told.{Accepts, told_with};

use crate::forms::is_formed_job;
use crate::stored_rows::StoredRows;
use farm_types::{JobRow, JobState, MOST_FINISHED, Text};
use std::alloc::{AllocError, Global};

impl StoredRows {
    /// Takes the row of a job.
    pub(crate) fn add_job(&mut self, alloc: Global, row: JobRow) -> Result<bool, AllocError>
        requires after { comes_after self.old.last (key_of (kind.Job row)) ≡ true }
        ensures { IfOk result (λ taken. Accepts taken self.old (kind.Job row) self.new) }
    {
        if !(self.lists.recorded && self.job_fits(&row)) {
            return Ok(false);
        }
        self.push_job(alloc, row)?;
        Ok(true)
    }

    // Whether it fits.
    fn job_fits(&self, row: &JobRow) -> bool
        ensures { result ≡ job_fits self.now.farm row.now }
    {
        is_below(self.lists.next_job, row.job.0)
            && (is_formed_job(self.lists.shows.len(), row)
                && (!self.has_job(&row.name) && self.end_fits(row)))
    }

    // Whether its finish and its counts fit.
    fn end_fits(&self, row: &JobRow) -> bool
        ensures { result ≡ end_fits self.now.farm row.now }
    {
        has_its_finish(self.lists.next_finish, row)
            && (has_its_counts(row)
                && (row.state.is_pending()
                    || (!self.has_finish(row) && self.finished_jobs() < MOST_FINISHED as usize)))
    }

    // Whether a job has the name.
    fn has_job(&self, name: &Text) -> bool
        ensures { result ≡ list_any (λ job. bytes_eq (job_label job) name.now) self.now.farm.jobs }
    {
        self.jobs.has_name(name)
    }

    // Whether a job has the finish of a finished one.
    fn has_finish(&self, row: &JobRow) -> bool
        requires finished { is_pending row.now.state ≡ false }
        requires some { has_its_finish self.now.farm.next_finish row.now ≡ true }
        ensures { result ≡ list_any (λ (j : JobRow). j.finish == row.now.finish) self.now.farm.jobs }
    {
        self.jobs.has_finish(row.finish)
    }

    // How many jobs are finished.
    fn finished_jobs(&self) -> usize
        ensures { result ≡ length (filter is_finished self.now.farm.jobs) }
    {
        self.jobs.finished()
    }

    // It is the last of the jobs.
    fn push_job(&mut self, alloc: Global, row: JobRow) -> Result<(), AllocError>
        requires after { comes_after self.old.last (key_of (kind.Job row)) ≡ true }
        requires fits { job_fits self.old.farm row ≡ true }
        ensures { OnOk result (self.new ≡ told_with self.old (kind.Job row)) }
    {
        self.lists.jobs.reserve(1)?;
        self.jobs.add(alloc, &row)?;
        let id = id_of(&row);
        self.lists.jobs.push_reserved(row);
        self.last = Some((6, id));
        Ok(())
    }
}

// The row's id.
fn id_of(row: &JobRow) -> u64
    ensures { result ≡ row.now.job }
{
    u64::from(row.job.0)
}

// Whether the number is one before the next.
fn is_below(next: u64, job: u32) -> bool
    ensures { result ≡ is_between 1 (next - 1) job }
{
    1 <= job && u64::from(job) < next
}

// Whether a pending job has no finish, and a finished one a number before the next.
fn has_its_finish(next: u64, row: &JobRow) -> bool
    ensures { result ≡ has_its_finish next row.now }
{
    match row.state {
        JobState::Pending => row.finish == 0,
        JobState::Finished => 0 < row.finish && row.finish < next,
    }
}

// Whether a pending job has no counts, and those of a finished one are all its frames.
fn has_its_counts(row: &JobRow) -> bool
    ensures { result ≡ has_its_counts row.now }
{
    match row.state {
        JobState::Pending => row.eaten == 0 && row.succeeded == 0,
        JobState::Finished => {
            u64::from(row.eaten) + u64::from(row.succeeded) == u64::from(row.frames)
        }
    }
}
