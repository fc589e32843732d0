//! The memory for the groups of one depend.

ghost use Rattle.std.specs.Prelude.{◌≡◌, IfOk, length};
ghost use Rattle.depend_graph.specs.Spare.{spare_of};

use crate::coming::spare::GraphSpare;
use crate::graph::Graph;
use depend_edges::{Count, edges_for};
use farm_types::{Group, Items};
use std::alloc::{AllocError, Global};

impl Graph {
    /// Takes the memory for the groups of one depend. Groups with 2^32 targets or more together are refused as out of memory.
    pub fn reserve(
        &mut self,
        alloc: Global,
        groups: &Items<Group>,
    ) -> Result<GraphSpare, AllocError>
        ensures graph { self.new ≡ self.old }
        ensures spare { IfOk result (λ spare. spare ≡ spare_of groups.now) }
    {
        spare_for(alloc, groups.as_slice())
    }
}

// A count for each group, and an edge for each target.
#[tactic(auto, unfolding(crate::specs::Spare::spare_of))]
fn spare_for(alloc: Global, groups: &[Group]) -> Result<GraphSpare, AllocError>
    ensures { IfOk result (λ spare. spare ≡ spare_of groups.now) }
{
    Ok(GraphSpare {
        counts: counts_for(alloc, groups.len())?,
        edges: edges_for(alloc, groups)?,
    })
}

// So many counts.
fn counts_for(alloc: Global, count: usize) -> Result<Vec<Count>, AllocError>
    ensures { IfOk result (λ counts. length counts.items ≡ count) }
{
    let none = Count {
        undone: 0,
        met: false,
    };
    Ok(vec![in alloc; none; count]?)
}
