//! A frame isn't done any more: the groups that it is a target of.

ghost use Rattle.std.specs.Prelude.{◌≡◌, ◌<◌, false, length, map, slice_set, true};
ghost use Rattle.std.specs.Vec.{vec_capacity};
ghost use Rattle.depend_edges.specs.Listed.{is_there};
ghost use Rattle.depend_edges.specs.Ways.{IsLast, KeepsNext, edge_lists, is_any};
ghost use Rattle.depend_graph.specs.Graph.{is_flagged};
ghost use Rattle.depend_graph.specs.Inside.{KeepsDepends, watches};
ghost use Rattle.depend_graph.specs.Watches.{AllCounted};

use crate::progress::flow::pass_back;
use depend_edges::{EdgeAt, Listed};
use farm_types::Slot;

/// The frame of the slot isn't done any more: along its way each group lacks one more. What is met stays met.
pub(crate) fn reopen(
    done: &mut Vec<bool>,
    first: Option<EdgeAt>,
    depends: &mut Vec<Listed>,
    slot: Slot,
)
    requires slot { slot < length done.old.items }
    requires done { is_flagged done.old.items slot ≡ true }
    requires first { IsLast (edge_lists depends.old.items) slot is_any first }
    requires next { KeepsNext (edge_lists depends.old.items) }
    requires depends { KeepsDepends depends.old.items }
    requires counts { AllCounted done.old.items depends.old.items }
    ensures done { done.new.items ≡ slice_set done.old.items slot false }
    ensures watches { watches depends.new.items ≡ watches depends.old.items }
    ensures edges { edge_lists depends.new.items ≡ edge_lists depends.old.items }
    ensures there { map is_there depends.new.items ≡ map is_there depends.old.items }
    ensures depends { KeepsDepends depends.new.items }
    ensures counts { AllCounted (slice_set done.old.items slot false) depends.new.items }
    ensures capacity { vec_capacity depends.new ≡ vec_capacity depends.old }
{
    let mut next = first;
    while let Some(at) = next {
        next = pass_back(depends, at);
    }
    done[slot.0 as usize] = false;
}
