//! The edges of a depend are put on the ways of their slots, and read there.

ghost use Rattle.std.specs.Prelude.{◌≡◌, ◌<◌, ◌+◌, ◌^◌, Some, length, map, slice_get, slice_set};
ghost use Rattle.std.specs.Vec.{vec_capacity};
ghost use Rattle.farm_types.specs.declared.limits.TheConstants.{SLOT_LIMIT};
ghost use Rattle.depend_edges.specs.Bare.{bare_of, changed_edge, with_next, with_prev};
ghost use Rattle.depend_edges.specs.Linking.{IsLinked};
ghost use Rattle.depend_edges.specs.Listed.{AllListed, ListedLists};
ghost use Rattle.depend_edges.specs.Places.{AtDepend, AtEdge, IsEdgeAt};
ghost use Rattle.depend_edges.specs.Ways.{KeepsWaysOf, edge_lists, is_ahead_of};

use crate::links::{Edge, EdgeAt};
use crate::listed::Listed;
use farm_types::Slot;

/// The edge that is named.
pub fn edge_in(depends: &[Listed], at: EdgeAt) -> Edge
    requires { IsEdgeAt depends.now at }
    ensures { (d : ListedLists) → slice_get depends.now at.depend ≡ Some d → slice_get d.edges at.edge ≡ Some result }
{
    depends[at.depend as usize].edge(at.edge)
}

/// The first edge on the slot's way.
pub fn first_of(first: &[Option<EdgeAt>], slot: Slot) -> Option<EdgeAt>
    requires { slot < length first.now }
    ensures { slice_get first.now slot ≡ Some result }
{
    first[slot.0 as usize]
}

/// The edges of the depend at a place go to the front of their slots' ways, where all edges of those before it are on them.
pub fn link(first: &mut Vec<Option<EdgeAt>>, depends: &mut Vec<Listed>, place: u32)
    requires place { place < length depends.old.items }
    requires listed { AllListed depends.old.items }
    requires first { length first.old.items ≡ SLOT_LIMIT }
    requires ways { KeepsWaysOf (is_ahead_of place 0) first.old.items (edge_lists depends.old.items) }
    ensures bare { map bare_of depends.new.items ≡ map bare_of depends.old.items }
    ensures first { length first.new.items ≡ SLOT_LIMIT }
    ensures ways { KeepsWaysOf (is_ahead_of (place + 1) 0) first.new.items (edge_lists depends.new.items) }
    ensures capacity { vec_capacity depends.new ≡ vec_capacity depends.old }
{
    let count = edge_count_at(depends.as_slice(), place);
    for edge in 0..count {
        let at = EdgeAt {
            depend: place,
            edge,
        };
        link_one(first, depends, at);
    }
}

/// How many edges the depend at a place has.
pub(crate) fn edge_count_at(depends: &[Listed], place: u32) -> u32
    requires place { place < length depends.now }
    requires within { AtDepend depends.now place (λ d. length d.edges < 2 ^ 32) }
    ensures { AtDepend depends.now place (λ d. result ≡ length d.edges) }
{
    edge_count_of(&depends[place as usize])
}

// How many edges the depend has.
fn edge_count_of(listed: &Listed) -> u32
    requires { length listed.now.edges < 2 ^ 32 }
    ensures { result ≡ length listed.now.edges }
{
    listed.edge_count() as u32
}

// The edge goes to the front of its slot's way.
fn link_one(first: &mut Vec<Option<EdgeAt>>, depends: &mut Vec<Listed>, at: EdgeAt)
    requires there { IsEdgeAt depends.old.items at }
    requires slot { AtEdge depends.old.items at (λ d e. e.slot < length first.old.items) }
    ensures linked { AtEdge depends.old.items at (λ d e. IsLinked at e.slot first.old.items first.new.items depends.old.items depends.new.items) }
    ensures capacity { vec_capacity depends.new ≡ vec_capacity depends.old }
{
    let edge = edge_in(depends.as_slice(), at);
    let next = first_of(first.as_slice(), edge.slot);
    set_prev_in(depends, next, Some(at));
    set_prev_in(depends, Some(at), None);
    set_next_in(depends, Some(at), next);
    set_first(first, edge.slot, Some(at));
}

/// The slot's way begins with that edge.
pub(crate) fn set_first(first: &mut Vec<Option<EdgeAt>>, slot: Slot, at: Option<EdgeAt>)
    requires { slot < length first.old.items }
    ensures { first.new.items ≡ slice_set first.old.items slot at }
{
    first[slot.0 as usize] = at;
}

/// The way goes on from the edge that is named to another one.
pub(crate) fn set_next_in(depends: &mut Vec<Listed>, at: Option<EdgeAt>, next: Option<EdgeAt>)
    ensures depends { depends.new.items ≡ changed_edge at (with_next next) depends.old.items }
    ensures capacity { vec_capacity depends.new ≡ vec_capacity depends.old }
{
    let Some(at) = at else {
        return;
    };
    let place = at.depend as usize;
    if place < depends.len() {
        depends[place].set_next(at.edge, next);
    }
}

/// The way comes to the edge that is named from another one.
pub(crate) fn set_prev_in(depends: &mut Vec<Listed>, at: Option<EdgeAt>, prev: Option<EdgeAt>)
    ensures depends { depends.new.items ≡ changed_edge at (with_prev prev) depends.old.items }
    ensures capacity { vec_capacity depends.new ≡ vec_capacity depends.old }
{
    let Some(at) = at else {
        return;
    };
    let place = at.depend as usize;
    if place < depends.len() {
        depends[place].set_prev(at.edge, prev);
    }
}
