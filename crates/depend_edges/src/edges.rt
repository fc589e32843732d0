//! The edges of groups, before they are on a way.

ghost use Rattle.std.specs.Prelude.{◌≡◌, ◌<◌, ◌^◌, ◌++◌, ◌∷◌, [], None, IfOk, OnOk, length, map};
ghost use Rattle.depend_edges.specs.Aims.{aim_at, aims_from};
ghost use Rattle.depend_edges.specs.Listed.{aim_of};

use crate::links::Edge;
use farm_types::{Group, Slot};
use std::alloc::{AllocError, Global};

/// An edge for each target of each group in order. Groups with 2^32 targets or more together are refused as out of memory.
pub fn edges_for(alloc: Global, groups: &[Group]) -> Result<Vec<Edge>, AllocError>
    ensures aims { IfOk result (λ edges. map aim_of edges.items ≡ aims_from 0 groups.now) }
    ensures within { IfOk result (λ edges. length edges.items < 2 ^ 32) }
{
    if groups.len() > u32::MAX as usize {
        return Err(AllocError);
    }
    let mut edges = Vec::new(alloc);
    for place in 0..groups.len() {
        push_edges(&mut edges, place as u32, groups[place].targets.as_slice())?;
    }
    Ok(edges)
}

// An edge more for each target of the group.
fn push_edges(edges: &mut Vec<Edge>, group: u32, targets: &[Slot]) -> Result<(), AllocError>
    requires { length edges.old.items < 2 ^ 32 }
    ensures aims { OnOk result (map aim_of edges.new.items ≡ map aim_of edges.old.items ++ map (aim_at group) targets.now) }
    ensures within { OnOk result (length edges.new.items < 2 ^ 32) }
{
    for target in targets {
        push_edge(edges, group, target)?;
    }
    Ok(())
}

// An edge more.
fn push_edge(edges: &mut Vec<Edge>, group: u32, target: &Slot) -> Result<(), AllocError>
    ensures items { OnOk result (edges.new.items ≡ edges.old.items ++ record { slot = target.now; group = group; next = None; prev = None } ∷ []) }
    ensures within { OnOk result (length edges.new.items < 2 ^ 32) }
{
    if edges.len() >= u32::MAX as usize {
        return Err(AllocError);
    }
    edges.push(Edge {
        slot: *target,
        group,
        next: None,
        prev: None,
    })?;
    Ok(())
}
