//! The memory that a job needs.

ghost use Rattle.std.specs.Prelude.{◌≡◌, IfOk};
ghost use Rattle.job_book.specs.Layers.{spare_of};

use crate::jobs::Jobs;
use crate::placement::placing::JobSpare;
use crate::reading::layer_index::fresh_layers;
use farm_types::JobSpec;
use std::alloc::{AllocError, Global};

impl Jobs {
    /// Takes the memory that the job needs beside its spec, so that placing it takes none. The book is as before.
    pub fn reserve(&mut self, alloc: Global, spec: &JobSpec) -> Result<JobSpare, AllocError>
        ensures book { self.new ≡ self.old }
        ensures reserved { IfOk result (λ reserved. reserved ≡ spare_of spec.now) }
    {
        self.names.reserve()?;
        Ok(JobSpare {
            name: String::from_str(alloc, spec.name.as_str())?,
            index: fresh_layers(alloc, spec.layers.as_slice())?,
            rows: Vec::with_capacity(alloc, spec.layers.len())?,
        })
    }
}
