//! The book of given rows, and its rows again.

ghost use Rattle.std.specs.Prelude.{◌≡◌, ◌≤◌, length, IfOk};
ghost use Rattle.std.specs.Vec.{vec_capacity};
ghost use Rattle.farm_types.specs.declared.limits.TheConstants.{MOST_ALLOCS};

use crate::allocs::Allocs;
use farm_types::{AllocRow, MOST_ALLOCS};
use std::alloc::AllocError;

impl Allocs {
    /// The book of these rows, with the memory of all. The rows are moved into it.
    pub fn of_rows(rows: Vec<AllocRow>) -> Result<Allocs, AllocError>
        requires { length rows.items ≤ MOST_ALLOCS }
        ensures { IfOk result (λ b. b ≡ rows.items) }
    {
        Ok(Allocs {
            rows: with_room(rows)?,
        })
    }

    /// The allocations, each at its number.
    pub fn rows(&self) -> &[AllocRow]
        ensures value { result.now ≡ self.now }
        ensures within { length result.now ≤ MOST_ALLOCS }
    {
        self.rows.as_slice()
    }
}

// The same rows, with the capacity for all.
fn with_room(rows: Vec<AllocRow>) -> Result<Vec<AllocRow>, AllocError>
    ensures items { IfOk result (λ all. all.items ≡ rows.items) }
    ensures capacity { IfOk result (λ all. MOST_ALLOCS ≤ vec_capacity all) }
{
    let mut rows = rows;
    rows.reserve((MOST_ALLOCS as usize).saturating_sub(rows.len()))?;
    Ok(rows)
}
