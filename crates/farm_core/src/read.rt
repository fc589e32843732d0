//! What is read of the farm beside its books' rows.

ghost use Rattle.std.specs.Prelude.{◌≡◌, ◌≤◌, filter, map, All, IfNone, IfOk, IfSome};
ghost use Rattle.farm_types.specs.Finish.{waits_by};
ghost use Rattle.farm_types.specs.Rising.{IsNextKey, depend_key};
ghost use Rattle.farm_types.specs.Sums.{used_on};
ghost use Rattle.farm_core.specs.Reads.{depend_after};

use crate::farm::Farm;
use farm_types::{Cores, DependNo, HostNo, JobNo, Kb};
use std::alloc::{AllocError, Global};

impl Farm {
    /// The cores and the memory that live attempts use on a host: none where there is no such host.
    pub fn used(&self, host: HostNo) -> (Cores, Kb)
        ensures { result ≡ used_on self.now host }
    {
        (
            Cores(self.books.used_cores(host) as u32),
            Kb(self.books.used_memory(host) as u64),
        )
    }

    /// The depend with the least number above this one.
    pub fn next_depend(&self, after: u32) -> Option<DependNo>
        ensures value { result ≡ depend_after self.now after }
        ensures least { IfSome result (IsNextKey depend_key self.now.depends after) }
        ensures none { IfNone result (All (λ d. d.depend ≤ after) self.now.depends) }
    {
        self.books.depends().next(after)
    }

    /// The numbers of the depends in which the job waits, in order.
    pub fn waiting(&self, alloc: Global, job: JobNo) -> Result<Vec<DependNo>, AllocError>
        ensures { IfOk result (λ numbers. numbers.items ≡ map depend_key (filter (waits_by job) self.now.depends)) }
    {
        let mut numbers = self.books.depends().waiting(alloc, job)?.into_vec();
        numbers.reverse();
        Ok(numbers)
    }
}
