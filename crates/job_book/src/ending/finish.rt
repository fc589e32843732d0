//! Jobs finish: their layers go, their slots become free, and of the finished ones so many are kept.

ghost use Rattle.std.specs.Prelude.{◌≡◌, ◌<◌, filter, length, true, ℕ};
ghost use Rattle.farm_types.specs.Finish.{is_finished, with_finished};
ghost use Rattle.farm_types.specs.Kept.{is_of_pending};
ghost use Rattle.farm_types.specs.declared.limits.TheConstants.{MOST_FINISHED};
ghost use Rattle.farm_types.specs.declared.states.FrameState.TheVariants as frame_state;
ghost use Rattle.job_book.specs.Book.{count_in, without_job};
ghost use Rattle.job_book.specs.Finished.{KeepsFinishes, finished_of, first_of_full, with_one_finished};
ghost use Rattle.job_book.specs.Inside.{IsBook};

use crate::ending::freeing::{Free, free_layers};
use crate::ending::leave::put_finished;
use crate::jobs::Jobs;
use farm_types::{JobNo, MOST_FINISHED};

impl Jobs {
    /// The pending job of that number, of which no frame is left, finishes: its layers go, its slots become free, one version
    /// later, and its row stays, with how many of its frames succeeded and were eaten. Where as many jobs are finished as are
    /// kept, the one that finished first leaves before. It takes no memory.
    pub fn finish(&mut self, job: JobNo)
        requires pending { is_of_pending self.old.jobs job ≡ true }
        requires none_waits { count_in job frame_state.Waiting self.old.slots ≡ 0 }
        ensures { self.new ≡ with_finished job self.old }
    {
        self.kept();
        self.leave_first();
        self.finish_one(job);
    }

    /// What this book keeps, as every one does.
    pub(crate) fn kept(&self)
        ensures lists { IsBook self.now }
        ensures finishes { KeepsFinishes self.now.jobs self.now.next_job self.now.next_finish }
    {
        let _kept = &self.next_finish;
    }

    // Where as many jobs are finished as are kept, the one that finished first leaves.
    fn leave_first(&mut self)
        ensures left { self.new ≡ record self.old { jobs = without_job (first_of_full (finished_of self.old.jobs)) self.old.jobs } }
        ensures few { length (filter is_finished self.new.jobs) < MOST_FINISHED }
        ensures pending { (job : ℕ) → is_of_pending self.old.jobs job ≡ true → is_of_pending self.new.jobs job ≡ true }
    {
        let finished = self.finished.jobs();
        if finished.len() < MOST_FINISHED as usize {
            return;
        }
        let first = finished[0];
        self.leave(first);
    }

    // The job finishes, where fewer are finished than are kept.
    fn finish_one(&mut self, job: JobNo)
        requires pending { is_of_pending self.old.jobs job ≡ true }
        requires none_waits { count_in job frame_state.Waiting self.old.slots ≡ 0 }
        requires few { length (filter is_finished self.old.jobs) < MOST_FINISHED }
        ensures { self.new ≡ with_one_finished job self.old }
    {
        let at = self.entries.at(job);
        let Some(counts) = self.entries.counts_at(&at) else {
            unreachable!()
        };
        let free = free_layers(
            &mut self.slots,
            self.entries.index_at(&at),
            job,
            Free {
                count: self.free,
                lowest: self.lowest,
            },
        );
        self.free = free.count;
        self.lowest = free.lowest;
        self.entries.finish(&at, self.next_finish, counts);
        put_finished(&mut self.finished, &self.entries, &at);
        self.next_finish += 1;
    }
}
