//! A copy of the book.

ghost use Rattle.std.specs.Prelude.{◌≡◌, IfOk};

use crate::jobs::Jobs;
use crate::reading::ready::copy_ready;
use farm_types::SLOT_LIMIT;
use job_index::plain_copies;
use std::alloc::{AllocError, Global};

impl Jobs {
    /// An equal book, with the same capacity.
    pub fn copy(&self, alloc: Global) -> Result<Jobs, AllocError>
        ensures { IfOk result (λ b. b ≡ self.now) }
    {
        Ok(Jobs {
            entries: self.entries.copy(alloc)?,
            names: self.names.copy(alloc)?,
            finished: self.finished.copy(alloc)?,
            slots: plain_copies(alloc, self.slots.as_slice(), SLOT_LIMIT)?,
            ready: copy_ready(alloc, self.ready.as_slice())?,
            free: self.free,
            lowest: self.lowest,
            next_finish: self.next_finish,
        })
    }
}
