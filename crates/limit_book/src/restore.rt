//! The book of given rows, and its rows again.

ghost use Rattle.std.specs.Prelude.{◌≡◌, ◌≤◌, length, replicate, IfOk};
ghost use Rattle.std.specs.Vec.{vec_capacity};
ghost use Rattle.farm_types.specs.declared.limits.TheConstants.{MOST_LIMITS};

use crate::limits::Limits;
use farm_types::{LimitRow, MOST_LIMITS};
use std::alloc::{AllocError, Global};

impl Limits {
    /// The book of these rows, in which nothing runs, with the memory of all. The rows are moved into it.
    pub fn of_rows(alloc: Global, rows: Vec<LimitRow>) -> Result<Limits, AllocError>
        requires { length rows.items ≤ MOST_LIMITS }
        ensures { IfOk result (λ b. b ≡ record { limits = rows.items; running = replicate (length rows.items) 0 }) }
    {
        let running = none_running(alloc, rows.len())?;
        Ok(Limits {
            rows: with_room(rows)?,
            running,
        })
    }

    /// The limits, each at its number.
    pub fn rows(&self) -> &[LimitRow]
        ensures value { result.now ≡ self.now.limits }
        ensures within { length result.now ≤ MOST_LIMITS }
    {
        self.rows.as_slice()
    }
}

// The same rows, with the capacity for all.
fn with_room(rows: Vec<LimitRow>) -> Result<Vec<LimitRow>, AllocError>
    ensures items { IfOk result (λ all. all.items ≡ rows.items) }
    ensures capacity { IfOk result (λ all. MOST_LIMITS ≤ vec_capacity all) }
{
    let mut rows = rows;
    rows.reserve((MOST_LIMITS as usize).saturating_sub(rows.len()))?;
    Ok(rows)
}

// So many zeros, with the capacity for all.
fn none_running(alloc: Global, count: usize) -> Result<Vec<u32>, AllocError>
    requires { count ≤ MOST_LIMITS }
    ensures items { IfOk result (λ zeros. zeros.items ≡ replicate count 0) }
    ensures capacity { IfOk result (λ zeros. MOST_LIMITS ≤ vec_capacity zeros) }
{
    let mut zeros = Vec::with_capacity(alloc, MOST_LIMITS as usize)?;
    for _ in 0..count {
        zeros.push_reserved(0);
    }
    Ok(zeros)
}
