//! The ways are made anew.

ghost use Rattle.std.specs.Prelude.{◌≡◌, ◌*◌, ◌<◌, ℕ, None, Option, Some, length, map, slice_get};
ghost use Rattle.std.specs.Vec.{vec_capacity};
ghost use Rattle.farm_types.specs.declared.limits.TheConstants.{MOST_DEPENDS, SLOT_LIMIT};
ghost use Rattle.depend_edges.specs.Bare.{bare_of};
ghost use Rattle.depend_edges.specs.Listed.{AllListed};
ghost use Rattle.depend_edges.specs.Ways.{KeepsWays, edge_lists};
ghost use Rattle.depend_edges.specs.declared.links.EdgeAt.{EdgeAt};

use crate::linking::link;
use crate::links::EdgeAt;
use crate::listed::Listed;

/// The ways are made anew, along all edges.
pub fn link_all(first: &mut Vec<Option<EdgeAt>>, depends: &mut Vec<Listed>)
    requires listed { AllListed depends.old.items }
    requires first { length first.old.items ≡ SLOT_LIMIT }
    requires places { length depends.old.items < 2 * MOST_DEPENDS }
    ensures bare { map bare_of depends.new.items ≡ map bare_of depends.old.items }
    ensures first { length first.new.items ≡ SLOT_LIMIT }
    ensures ways { KeepsWays first.new.items (edge_lists depends.new.items) }
    ensures capacity { vec_capacity depends.new ≡ vec_capacity depends.old }
{
    end_ways(first);
    for place in 0..depends.len() {
        link(first, depends, place as u32);
    }
}

// No edge is on a way.
fn end_ways(first: &mut Vec<Option<EdgeAt>>)
    ensures none { (slot : ℕ) (o : Option EdgeAt) → slice_get first.new.items slot ≡ Some o → o ≡ None }
    ensures length { length first.new.items ≡ length first.old.items }
{
    for slot in 0..first.len() {
        first[slot] = None;
    }
}
