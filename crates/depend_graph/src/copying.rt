//! A copy of the graph.

ghost use Rattle.std.specs.Prelude.{◌≡◌, ◌*◌, ◌≤◌, IfOk};
ghost use Rattle.std.specs.Vec.{vec_capacity};
ghost use Rattle.farm_types.specs.declared.limits.TheConstants.{MOST_DEPENDS};

use crate::graph::Graph;
use crate::tally::Tally;
use depend_edges::Listed;
use farm_types::MOST_DEPENDS;
use std::alloc::{AllocError, Global};

impl Graph {
    /// An equal graph.
    pub fn copy(&self, alloc: Global) -> Result<Graph, AllocError>
        ensures { IfOk result (λ g. g ≡ self.now) }
    {
        Ok(Graph {
            done: Vec::from_slice(alloc, self.done.as_slice())?,
            first: Vec::from_slice(alloc, self.first.as_slice())?,
            tally: copy_tally(alloc, &self.tally)?,
            alloc,
        })
    }
}

// An equal tally, with room for as many depends as there may be, and as many empty places.
fn copy_tally(alloc: Global, tally: &Tally) -> Result<Tally, AllocError>
    ensures depends { IfOk result (λ copy. copy.depends.items ≡ tally.now.depends.items) }
    ensures unmet { IfOk result (λ copy. copy.unmet.items ≡ tally.now.unmet.items) }
    ensures left { IfOk result (λ copy. copy.left ≡ tally.now.left) }
    ensures capacity { IfOk result (λ copy. 2 * MOST_DEPENDS ≤ vec_capacity copy.depends) }
{
    Ok(Tally {
        depends: copy_depends(alloc, tally.depends.as_slice())?,
        unmet: Vec::from_slice(alloc, tally.unmet.as_slice())?,
        left: tally.left,
    })
}

// Equal depends, with room for as many as there may be, and as many empty places.
fn copy_depends(alloc: Global, depends: &[Listed]) -> Result<Vec<Listed>, AllocError>
    ensures items { IfOk result (λ copies. copies.items ≡ depends.now) }
    ensures capacity { IfOk result (λ copies. 2 * MOST_DEPENDS ≤ vec_capacity copies) }
{
    let mut copies = Vec::with_capacity(alloc, 2 * MOST_DEPENDS as usize)?;
    for listed in depends {
        copies.push(listed.copy(alloc)?)?;
    }
    Ok(copies)
}
