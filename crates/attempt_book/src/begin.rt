//! An attempt begins in a slot, and ends there.

ghost use Rattle.std.specs.Prelude.{◌≡◌, ◌<◌, None, Some, length, slice_set};
ghost use Rattle.std.specs.Vec.{vec_capacity};
ghost use Rattle.attempt_book.specs.Book.{CanBegin};

use crate::attempts::{Attempts, live_at};
use crate::sums::{lower_cores, lower_memory, raise_cores, raise_memory};
use crate::way::{link, unlink};
use farm_types::{ProcRow, Slot};

impl Attempts {
    /// An attempt begins in a slot. It takes no memory.
    pub fn begin(&mut self, slot: Slot, proc: ProcRow)
        requires { CanBegin self.old slot proc }
        ensures { self.new ≡ record self.old { procs = slice_set self.old.procs slot (Some proc) } }
    {
        let from = self.join(proc.host, slot);
        link(&mut self.first, &mut self.next, proc.host, from, slot);
        raise_cores(&mut self.cores, proc.host, proc.cores);
        raise_memory(&mut self.memory, proc.host, proc.memory);
        self.subs.add(proc.sub, proc.cores);
        set_at(&mut self.procs, slot, Some(proc));
    }

    /// The slot's attempt ends, where it has one.
    pub fn end(&mut self, slot: Slot)
        ensures { self.new ≡ record self.old { procs = slice_set self.old.procs slot None } }
    {
        let Some(proc) = live_at(self.procs.as_slice(), slot) else {
            return;
        };
        let from = self.join(proc.host, slot);
        unlink(&mut self.first, &mut self.next, proc.host, from, slot);
        lower_cores(&mut self.cores, proc.host, proc.cores);
        lower_memory(&mut self.memory, proc.host, proc.memory);
        self.subs.remove(proc.sub, proc.cores);
        set_at(&mut self.procs, slot, None);
    }
}

/// The slot has that attempt, or none.
pub(crate) fn set_at(procs: &mut Vec<Option<ProcRow>>, slot: Slot, proc: Option<ProcRow>)
    requires { slot < length procs.old.items }
    ensures items { procs.new.items ≡ slice_set procs.old.items slot proc }
    ensures capacity { vec_capacity procs.new ≡ vec_capacity procs.old }
{
    procs[slot.0 as usize] = proc;
}
