//! A copy of the book.

ghost use Rattle.std.specs.Prelude.{◌≡◌, ◌≤◌, IfOk};
ghost use Rattle.std.specs.Vec.{vec_capacity};
ghost use Rattle.farm_types.specs.declared.limits.TheConstants.{MOST_ALLOCS};

use crate::allocs::Allocs;
use farm_types::{AllocRow, MOST_ALLOCS};
use std::alloc::{AllocError, Global};

impl Allocs {
    /// An equal book, with the same capacity.
    pub fn copy(&self, alloc: Global) -> Result<Allocs, AllocError>
        ensures { IfOk result (λ b. b ≡ self.now) }
    {
        Ok(Allocs {
            rows: copy_rows(alloc, self.rows.as_slice())?,
        })
    }
}

// Equal allocations, with the capacity for all.
fn copy_rows(alloc: Global, rows: &[AllocRow]) -> Result<Vec<AllocRow>, AllocError>
    ensures items { IfOk result (λ copies. copies.items ≡ rows.now) }
    ensures capacity { IfOk result (λ copies. MOST_ALLOCS ≤ vec_capacity copies) }
{
    let mut copies = Vec::with_capacity(alloc, MOST_ALLOCS as usize)?;
    for row in rows {
        copies.push(row.copy(alloc)?)?;
    }
    Ok(copies)
}
