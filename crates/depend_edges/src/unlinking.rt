//! The edges of a depend are taken off the ways of their slots.

ghost use Rattle.std.specs.Prelude.{◌≡◌, ◌<◌, length, map};
ghost use Rattle.std.specs.Vec.{vec_capacity};
ghost use Rattle.farm_types.specs.declared.limits.TheConstants.{SLOT_LIMIT};
ghost use Rattle.depend_edges.specs.Bare.{bare_of};
ghost use Rattle.depend_edges.specs.Linking.{first_without, unlinked_in};
ghost use Rattle.depend_edges.specs.Listed.{AllListed};
ghost use Rattle.depend_edges.specs.Places.{AtDepend, AtEdge, IsEdgeAt};
ghost use Rattle.depend_edges.specs.Ways.{KeepsWays, KeepsWaysOf, edge_lists, is_outside};

use crate::linking::{edge_count_at, edge_in, set_first, set_next_in, set_prev_in};
use crate::links::EdgeAt;
use crate::listed::Listed;
use farm_types::Slot;

/// The edges of the depend at a place are taken off the ways of their slots.
pub fn unlink(first: &mut Vec<Option<EdgeAt>>, depends: &mut Vec<Listed>, place: u32)
    requires place { place < length depends.old.items }
    requires listed { AllListed depends.old.items }
    requires first { length first.old.items ≡ SLOT_LIMIT }
    requires ways { KeepsWays first.old.items (edge_lists depends.old.items) }
    ensures bare { map bare_of depends.new.items ≡ map bare_of depends.old.items }
    ensures first { length first.new.items ≡ SLOT_LIMIT }
    ensures ways { AtDepend depends.old.items place (λ d. KeepsWaysOf (is_outside place (length d.edges)) first.new.items (edge_lists depends.new.items)) }
    ensures capacity { vec_capacity depends.new ≡ vec_capacity depends.old }
{
    let count = edge_count_at(depends.as_slice(), place);
    for edge in 0..count {
        let at = EdgeAt {
            depend: place,
            edge,
        };
        unlink_one(first, depends, at);
    }
}

// The edge is taken off its slot's way.
fn unlink_one(first: &mut Vec<Option<EdgeAt>>, depends: &mut Vec<Listed>, at: EdgeAt)
    requires there { IsEdgeAt depends.old.items at }
    requires slot { AtEdge depends.old.items at (λ d e. e.slot < length first.old.items) }
    ensures first { AtEdge depends.old.items at (λ d e. first.new.items ≡ first_without e.slot e.prev e.next first.old.items) }
    ensures depends { AtEdge depends.old.items at (λ d e. depends.new.items ≡ unlinked_in e depends.old.items) }
    ensures capacity { vec_capacity depends.new ≡ vec_capacity depends.old }
{
    let edge = edge_in(depends.as_slice(), at);
    leave_first(first, edge.slot, edge.prev, edge.next);
    set_next_in(depends, edge.prev, edge.next);
    set_prev_in(depends, edge.next, edge.prev);
}

// Where the edge was the first one of its slot, the next one is first.
fn leave_first(
    first: &mut Vec<Option<EdgeAt>>,
    slot: Slot,
    prev: Option<EdgeAt>,
    next: Option<EdgeAt>,
)
    requires { slot < length first.old.items }
    ensures { first.new.items ≡ first_without slot prev next first.old.items }
{
    if let None = prev {
        set_first(first, slot, next);
    }
}
