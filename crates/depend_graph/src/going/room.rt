//! Places that forgotten depends left empty are closed up.

ghost use Rattle.std.specs.Prelude.{◌≡◌, ◌*◌, ◌<◌, ℕ, List, count_by, length};
ghost use Rattle.std.specs.Vec.{vec_capacity};
ghost use Rattle.farm_types.specs.declared.limits.TheConstants.{MOST_DEPENDS, SLOT_LIMIT};
ghost use Rattle.depend_edges.specs.Listed.{is_there};
ghost use Rattle.depend_edges.specs.Ways.{KeepsWays, edge_lists};
ghost use Rattle.depend_graph.specs.Inside.{KeepsDepends, KeepsSums, there_of, watches};
ghost use Rattle.depend_graph.specs.Watches.{StayCounted};

use depend_edges::{EdgeAt, Listed, link_all};
use farm_types::MOST_DEPENDS;

/// Where no place is left, the empty ones are closed up. Among twice as many places as there may be depends, half of them are empty then.
pub(crate) fn make_room(first: &mut Vec<Option<EdgeAt>>, depends: &mut Vec<Listed>)
    requires depends { KeepsDepends depends.old.items }
    requires ways { KeepsWays first.old.items (edge_lists depends.old.items) }
    requires first { length first.old.items ≡ SLOT_LIMIT }
    requires few { count_by is_there depends.old.items < MOST_DEPENDS }
    ensures room { length depends.new.items < 2 * MOST_DEPENDS }
    ensures watches { watches (there_of depends.new.items) ≡ watches (there_of depends.old.items) }
    ensures depends { KeepsDepends depends.new.items }
    ensures sums { (unmet : List ℕ) (left : ℕ) → KeepsSums unmet left depends.old.items → KeepsSums unmet left depends.new.items }
    ensures counts { StayCounted depends.old.items depends.new.items }
    ensures ways { KeepsWays first.new.items (edge_lists depends.new.items) }
    ensures first { length first.new.items ≡ SLOT_LIMIT }
    ensures capacity { vec_capacity depends.new ≡ vec_capacity depends.old }
{
    if depends.len() < 2 * MOST_DEPENDS as usize {
        return;
    }
    leave_out(depends);
    link_all(first, depends);
}

// The places of forgotten depends go.
fn leave_out(depends: &mut Vec<Listed>)
    ensures items { depends.new.items ≡ there_of depends.old.items }
    ensures capacity { vec_capacity depends.new ≡ vec_capacity depends.old }
{
    depends.retain(|listed| listed.is_there());
}
