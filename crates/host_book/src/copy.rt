//! A copy of the book.

ghost use Rattle.std.specs.Prelude.{◌≡◌, ◌≤◌, ◌+◌, length, map, string_bytes, IfOk};
ghost use Rattle.std.specs.Vec.{vec_capacity};
ghost use Rattle.indexmap.specs.IndexSet.{spare};
ghost use Rattle.farm_types.specs.declared.limits.TheConstants.{MOST_HOSTS};

use crate::hosts::Hosts;
use farm_types::{HostRow, MOST_HOSTS};
use indexmap::IndexSet;
use std::alloc::{AllocError, Global};

impl Hosts {
    /// An equal book.
    pub fn copy(&self, alloc: Global) -> Result<Hosts, AllocError>
        ensures { IfOk result (λ b. b ≡ self.now) }
    {
        Ok(Hosts {
            rows: copy_rows(alloc, self.rows.as_slice())?,
            names: copy_names(&self.names)?,
            watched: copy_watched(alloc, self.watched.as_slice())?,
            oldest: self.oldest,
        })
    }
}

// Equal rows, with the capacity for all.
fn copy_rows(alloc: Global, rows: &[HostRow]) -> Result<Vec<HostRow>, AllocError>
    ensures items { IfOk result (λ copies. copies.items ≡ rows.now) }
    ensures capacity { IfOk result (λ copies. MOST_HOSTS ≤ vec_capacity copies) }
{
    let mut copies = Vec::with_capacity(alloc, MOST_HOSTS as usize)?;
    for row in rows {
        copies.push(row.copy(alloc)?)?;
    }
    Ok(copies)
}

// Equal names, with the capacity for all.
fn copy_names(names: &IndexSet<String>) -> Result<IndexSet<String>, AllocError>
    ensures keys { IfOk result (λ copies. map string_bytes copies.keys ≡ map string_bytes names.now.keys) }
    ensures capacity { IfOk result (λ copies. MOST_HOSTS ≤ length copies.keys + spare copies) }
{
    let mut copies = names.clone()?;
    copies.reserve((MOST_HOSTS as usize).saturating_sub(copies.len()))?;
    Ok(copies)
}

// Equal moments, with the capacity for all.
fn copy_watched(alloc: Global, watched: &[u64]) -> Result<Vec<u64>, AllocError>
    ensures items { IfOk result (λ copies. copies.items ≡ watched.now) }
    ensures capacity { IfOk result (λ copies. MOST_HOSTS ≤ vec_capacity copies) }
{
    let mut copies = Vec::with_capacity(alloc, MOST_HOSTS as usize)?;
    copies.extend_from_slice(watched)?;
    Ok(copies)
}
