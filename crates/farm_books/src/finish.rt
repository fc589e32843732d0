//! A job finishes.

ghost use Rattle.std.specs.Prelude.{◌≡◌};
ghost use Rattle.farm_types.specs.Finish.{with_finished};
ghost use Rattle.farm_types.specs.Step.{lists_of, with_lists};
ghost use Rattle.farm_books.specs.Books.{with_farm};
ghost use Rattle.farm_books.specs.Finish.{CanFinish};

use crate::books::Books;
use farm_types::JobNo;

impl Books {
    /// The job finishes: its layers go, and its slots become free. Where more jobs are finished than are kept, the one that finished first leaves. It
    /// takes no memory.
    pub fn finish(&mut self, job: JobNo)
        requires { CanFinish (lists_of self.old.farm) job }
        ensures { self.new ≡ with_farm self.old (with_lists self.old.farm (with_finished job (lists_of self.old.farm))) }
    {
        self.jobs.finish(job);
    }
}
