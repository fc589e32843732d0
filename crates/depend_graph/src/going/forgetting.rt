//! A depend is forgotten.

ghost use Rattle.std.specs.Prelude.{◌≡◌, ◌<◌, length};
ghost use Rattle.std.specs.Vec.{vec_capacity};
ghost use Rattle.farm_types.specs.declared.limits.TheConstants.{SLOT_LIMIT};
ghost use Rattle.farm_types.specs.Farm.{changed_at};
ghost use Rattle.depend_edges.specs.Listed.{emptied};
ghost use Rattle.depend_edges.specs.Ways.{KeepsWays, edge_lists};
ghost use Rattle.depend_graph.specs.Graph.{forgotten};
ghost use Rattle.depend_graph.specs.Inside.{HasForgotten, KeepsTally};
ghost use Rattle.depend_graph.specs.Watches.{StayCounted};

use crate::going::dropping::find_place;
use crate::going::releasing::{left_without, release_at};
use crate::graph::Graph;
use crate::tally::Tally;
use depend_edges::{EdgeAt, Listed, unlink};
use farm_types::DependNo;
use std::alloc::Global;

impl Graph {
    /// The depend of that number goes, with its groups. Nothing changes where it isn't there. It takes no memory, and gives the depend's back.
    pub fn forget(&mut self, depend: DependNo)
        ensures { self.new ≡ forgotten self.old depend }
    {
        let Some(place) = find_place(self.tally.depends.as_slice(), depend) else {
            return;
        };
        self.tally.forget_at(&mut self.first, self.alloc, place);
    }
}

impl Tally {
    // The depend at a place goes: no one waits in its groups any more, its edges leave their ways, and its memory is given back.
    fn forget_at(&mut self, first: &mut Vec<Option<EdgeAt>>, alloc: Global, place: u32)
        requires there { place < length self.old.depends.items }
        requires kept { KeepsTally self.old }
        requires ways { KeepsWays first.old.items (edge_lists self.old.depends.items) }
        requires first { length first.old.items ≡ SLOT_LIMIT }
        ensures watches { HasForgotten self.old.depends.items place self.new.depends.items }
        ensures kept { KeepsTally self.new }
        ensures counts { StayCounted self.old.depends.items self.new.depends.items }
        ensures ways { KeepsWays first.new.items (edge_lists self.new.depends.items) }
        ensures first { length first.new.items ≡ SLOT_LIMIT }
    {
        release_at(&mut self.unmet, self.depends.as_slice(), place);
        self.left = left_without(self.left, self.depends.as_slice(), place);
        unlink(first, &mut self.depends, place);
        empty_at(&mut self.depends, place, alloc);
    }
}

// Nothing is left of the depend at a place but its number.
fn empty_at(depends: &mut Vec<Listed>, place: u32, alloc: Global)
    ensures depends { depends.new.items ≡ changed_at depends.old.items place emptied }
    ensures capacity { vec_capacity depends.new ≡ vec_capacity depends.old }
{
    let at = place as usize;
    if at < depends.len() {
        depends[at].empty(alloc);
    }
}
