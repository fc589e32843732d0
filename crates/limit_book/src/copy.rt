//! A copy of the book.

ghost use Rattle.std.specs.Prelude.{◌≡◌, ◌≤◌, IfOk};
ghost use Rattle.std.specs.Vec.{vec_capacity};
ghost use Rattle.farm_types.specs.declared.limits.TheConstants.{MOST_LIMITS};

use crate::limits::Limits;
use farm_types::{LimitRow, MOST_LIMITS};
use std::alloc::{AllocError, Global};

impl Limits {
    /// An equal book, with the same capacity.
    pub fn copy(&self, alloc: Global) -> Result<Limits, AllocError>
        ensures { IfOk result (λ b. b ≡ self.now) }
    {
        Ok(Limits {
            rows: copy_rows(alloc, self.rows.as_slice())?,
            running: copy_running(alloc, self.running.as_slice())?,
        })
    }
}

// Equal limits, with the capacity for all.
fn copy_rows(alloc: Global, rows: &[LimitRow]) -> Result<Vec<LimitRow>, AllocError>
    ensures items { IfOk result (λ copies. copies.items ≡ rows.now) }
    ensures capacity { IfOk result (λ copies. MOST_LIMITS ≤ vec_capacity copies) }
{
    let mut copies = Vec::with_capacity(alloc, MOST_LIMITS as usize)?;
    for row in rows {
        copies.push(row.copy(alloc)?)?;
    }
    Ok(copies)
}

// Equal counts, with the capacity for all.
fn copy_running(alloc: Global, running: &[u32]) -> Result<Vec<u32>, AllocError>
    ensures items { IfOk result (λ copies. copies.items ≡ running.now) }
    ensures capacity { IfOk result (λ copies. MOST_LIMITS ≤ vec_capacity copies) }
{
    let mut copies = Vec::with_capacity(alloc, MOST_LIMITS as usize)?;
    copies.extend_from_slice(running)?;
    Ok(copies)
}
