//! A job is put in, with its layers and its frames.

ghost use Rattle.std.specs.Prelude.{◌≡◌};
ghost use Rattle.farm_types.specs.Jobs.{with_job};
ghost use Rattle.farm_types.specs.Step.{lists_of, with_lists};
ghost use Rattle.job_book.specs.Layers.{spare_of};
ghost use Rattle.farm_books.specs.Books.{with_farm};
ghost use Rattle.farm_books.specs.Install.{IsPlacement};

use crate::books::Books;
use farm_types::JobSpec;
use job_book::{JobSpare, Placing};

impl Books {
    /// A job is placed where `check_job` said, in the memory that was taken for it: its frames wait in the lowest free slots. It takes no memory.
    pub fn install_job(&mut self, spec: JobSpec, spare: JobSpare, placing: Placing)
        requires placed { IsPlacement self.old.farm placing spec }
        requires spare { spare ≡ spare_of spec }
        ensures { self.new ≡ with_farm self.old (with_lists self.old.farm (with_job (lists_of self.old.farm) placing.show placing.limits spec)) }
    {
        // No frame is of the new job, or of a later one.
        let _next = self.jobs.next_number();
        let before = self.jobs.slots().len();
        self.jobs.place(spec, spare, placing);
        let after = self.jobs.slots().len();
        self.attempts.grow(after - before);
    }
}
