//! Copies of the rows of all jobs and layers, in their order, and the numbers of all jobs.

ghost use Rattle.std.specs.Prelude.{◌≡◌, map, IfOk};

use crate::jobs::Jobs;
use farm_types::{JobNo, JobRow, LayerRow};
use std::alloc::{AllocError, Global};

impl Jobs {
    /// Copies of the jobs' rows, in the order of their numbers.
    pub fn job_rows(&self, alloc: Global) -> Result<Vec<JobRow>, AllocError>
        ensures { IfOk result (λ rows. rows.items ≡ self.now.jobs) }
    {
        self.entries.job_rows(alloc)
    }

    /// The jobs' numbers, in order.
    pub fn numbers(&self, alloc: Global) -> Result<Vec<JobNo>, AllocError>
        ensures { IfOk result (λ numbers. numbers.items ≡ map (λ j. j.job) self.now.jobs) }
    {
        self.entries.numbers(alloc)
    }

    /// Copies of the layers' rows, in the order of their jobs, those of a job by their places.
    pub fn layer_rows(&self, alloc: Global) -> Result<Vec<LayerRow>, AllocError>
        ensures { IfOk result (λ rows. rows.items ≡ self.now.layers) }
    {
        self.entries.layer_rows(alloc)
    }
}
