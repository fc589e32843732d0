//! A copy of the book.

ghost use Rattle.std.specs.Prelude.{◌≡◌, ◌≤◌, IfOk};
ghost use Rattle.std.specs.Vec.{vec_capacity};
ghost use Rattle.farm_types.specs.declared.limits.TheConstants.{SLOT_LIMIT};

use crate::attempts::Attempts;
use farm_types::{ProcRow, SLOT_LIMIT};
use std::alloc::{AllocError, Global};

impl Attempts {
    /// An equal book, with the same capacity.
    pub fn copy(&self, alloc: Global) -> Result<Attempts, AllocError>
        ensures { IfOk result (λ b. b ≡ self.now) }
    {
        Ok(Attempts {
            subs: self.subs.copy(alloc)?,
            procs: copy_procs(alloc, self.procs.as_slice())?,
            cores: Vec::from_slice(alloc, self.cores.as_slice())?,
            memory: Vec::from_slice(alloc, self.memory.as_slice())?,
            first: Vec::from_slice(alloc, self.first.as_slice())?,
            next: Vec::from_slice(alloc, self.next.as_slice())?,
        })
    }
}

// Equal attempts, with the capacity for all slots.
fn copy_procs(alloc: Global, procs: &[Option<ProcRow>]) -> Result<Vec<Option<ProcRow>>, AllocError>
    ensures items { IfOk result (λ copies. copies.items ≡ procs.now) }
    ensures capacity { IfOk result (λ copies. SLOT_LIMIT ≤ vec_capacity copies) }
{
    let mut copies = Vec::with_capacity(alloc, SLOT_LIMIT as usize)?;
    copies.extend_from_slice(procs)?;
    Ok(copies)
}
