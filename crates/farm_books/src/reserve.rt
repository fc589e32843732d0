//! The memory that rows need beside their own texts.

ghost use Rattle.std.specs.Prelude.{◌≡◌, IfOk};
ghost use Rattle.job_book.specs.Layers.{spare_of};

use crate::books::Books;
use alloc_tags::Spare;
use farm_types::{BootLine, JobSpec};
use host_book::HostSpare;
use job_book::JobSpare;
use limit_book::Spare as LimitSpare;
use std::alloc::{AllocError, Global};

impl Books {
    /// Takes the memory that an allocation needs. The books are as before.
    pub fn reserve_alloc(
        &mut self,
        alloc: Global,
        facility: &str,
        tag: &str,
    ) -> Result<Spare, AllocError>
        ensures books { self.new ≡ self.old }
        ensures reserved { IfOk result (λ spare. spare ≡ record { facility = facility.now; tag = tag.now }) }
    {
        self.allocs.reserve(alloc, facility, tag)
    }

    /// Takes the memory that a limit needs. The books are as before.
    pub fn reserve_limit(&mut self, alloc: Global, name: &str) -> Result<LimitSpare, AllocError>
        ensures books { self.new ≡ self.old }
        ensures reserved { IfOk result (λ spare. spare ≡ name.now) }
    {
        self.limits.reserve(alloc, name)
    }

    /// Takes the memory that a boot needs. The books are as before.
    pub fn reserve_boot(&mut self, alloc: Global, line: &BootLine) -> Result<HostSpare, AllocError>
        ensures books { self.new ≡ self.old }
        ensures reserved { IfOk result (λ spare. spare ≡ line.now) }
    {
        self.hosts.reserve(alloc, line)
    }

    /// Takes the memory that a job needs beside its spec. The books are as before.
    pub fn reserve_job(&mut self, alloc: Global, spec: &JobSpec) -> Result<JobSpare, AllocError>
        ensures books { self.new ≡ self.old }
        ensures reserved { IfOk result (λ spare. spare ≡ spare_of spec.now) }
    {
        self.jobs.reserve(alloc, spec)
    }
}
