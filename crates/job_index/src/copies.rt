//! Copies with a capacity.

ghost use Rattle.std.specs.Prelude.{◌≡◌, ◌≤◌, IfOk};
ghost use Rattle.std.specs.Vec.{vec_capacity};

use std::alloc::{AllocError, Global};

/// Equal values that own no memory, with a capacity.
pub fn plain_copies<T: Copy>(
    alloc: Global,
    values: &[T],
    capacity: u32,
) -> Result<Vec<T>, AllocError>
    ensures items { IfOk result (λ copies. copies.items ≡ values.now) }
    ensures capacity { IfOk result (λ copies. capacity ≤ vec_capacity copies) }
{
    let mut copies = Vec::with_capacity(alloc, capacity as usize)?;
    copies.extend_from_slice(values)?;
    Ok(copies)
}
