//! Finished jobs leave the book.

ghost use Rattle.std.specs.Prelude.{◌≡◌, ◌==◌, ◌<◌, ◌+◌, ◌*◌, ◌&&◌, IfSome, find, true};
ghost use Rattle.farm_types.specs.Farm.{for_some};
ghost use Rattle.farm_types.specs.Jobs.{without_finished};
ghost use Rattle.job_book.specs.Book.{has_job};
ghost use Rattle.job_entries.specs.Entries.{IsAt};
ghost use Rattle.job_book.specs.Finished.{can_put, finish_key, has_finish, without_done};
ghost use Rattle.job_index.specs.Keys.{put_key};
ghost use Rattle.job_index.specs.declared.ready_jobs.TheConstants.{JOB_NUMBERS};

use crate::jobs::Jobs;
use farm_types::{JobNo, JobRow, Text};
use job_entries::{At, Entries};
use job_index::{JOB_NUMBERS, ReadyJobs};

impl Jobs {
    /// A finished job of that name leaves, where there is one.
    pub(crate) fn leave_named(&mut self, name: &Text)
        ensures { self.new ≡ record self.old { jobs = without_finished name.now self.old.jobs } }
    {
        let Some(job) = self.names.get(name.as_str()) else {
            return;
        };
        self.leave(job);
    }

    /// The job of that number leaves, where it is finished.
    pub(crate) fn leave(&mut self, job: JobNo)
        requires { has_job self.old job ≡ true }
        ensures { self.new ≡ record self.old { jobs = without_done job self.old.jobs } }
    {
        let at = self.entries.at(job);
        let Some(row) = self.entries.row_at(&at) else {
            unreachable!()
        };
        if row.state.is_pending() {
            return;
        }
        self.finished.take(finish_key(row));
        self.names.remove(row.name.as_str());
        self.entries.leave(&at);
    }
}

/// The job at a place goes to its place among the finished ones.
pub(crate) fn put_finished(finished: &mut ReadyJobs, entries: &Entries, at: &At)
    requires at { IsAt at.now entries.now.numbers }
    requires there { for_some (find (λ j. j.job == at.now.job) entries.now.rows) (λ j. has_finish j && can_put (finish_key j) finished.old) ≡ true }
    ensures { IfSome (find (λ j. j.job == at.now.job) entries.now.rows) (λ j. finished.new ≡ put_key (finish_key j) finished.old) }
{
    let Some(row) = entries.row_at(at) else {
        unreachable!()
    };
    finished.put(finish_key(row));
}

/// The key by which finished jobs are in order.
pub(crate) fn finish_key(row: &JobRow) -> u64
    requires { has_finish row.now ≡ true }
    ensures { result ≡ finish_key row.now }
{
    key_of(row.finish, row.job.0)
}

// The key of a job that finished by that number.
fn key_of(finish: u64, job: u32) -> u64
    requires { finish < JOB_NUMBERS }
    ensures { result ≡ finish * JOB_NUMBERS + job }
{
    finish * JOB_NUMBERS + u64::from(job)
}
