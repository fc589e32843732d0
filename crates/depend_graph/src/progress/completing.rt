//! A frame is done: the groups that it is a target of.

ghost use Rattle.std.specs.Prelude.{◌≡◌, ◌<◌, false, length, map, slice_set, true};
ghost use Rattle.depend_edges.specs.Listed.{is_there};
ghost use Rattle.depend_edges.specs.Ways.{IsLast, KeepsNext, edge_lists, is_any};
ghost use Rattle.depend_graph.specs.Graph.{HasOpened, completed_in, is_flagged, nothing_opened};
ghost use Rattle.depend_graph.specs.Inside.{KeepsTally, watches};
ghost use Rattle.depend_graph.specs.Watches.{AllCounted};

use crate::progress::opened::Opened;
use crate::tally::Tally;
use depend_edges::EdgeAt;
use farm_types::Slot;

impl Tally {
    /// The frame of the slot is done: along its way each group lacks one fewer, and those that lack none are met.
    pub(crate) fn complete(
        &mut self,
        done: &mut Vec<bool>,
        first: Option<EdgeAt>,
        opened: &mut Opened,
        slot: Slot,
    )
        requires slot { slot < length done.old.items }
        requires undone { is_flagged done.old.items slot ≡ false }
        requires opened { opened.old ≡ nothing_opened }
        requires first { IsLast (edge_lists self.old.depends.items) slot is_any first }
        requires next { KeepsNext (edge_lists self.old.depends.items) }
        requires kept { KeepsTally self.old }
        requires counts { AllCounted done.old.items self.old.depends.items }
        ensures done { done.new.items ≡ slice_set done.old.items slot true }
        ensures watches { watches self.new.depends.items ≡ map (completed_in (slice_set done.old.items slot true) slot) (watches self.old.depends.items) }
        ensures edges { edge_lists self.new.depends.items ≡ edge_lists self.old.depends.items }
        ensures there { map is_there self.new.depends.items ≡ map is_there self.old.depends.items }
        ensures kept { KeepsTally self.new }
        ensures counts { AllCounted (slice_set done.old.items slot true) self.new.depends.items }
        ensures opened { HasOpened (watches self.old.depends.items) (watches self.new.depends.items) opened.new }
    {
        let mut next = first;
        while let Some(at) = next {
            next = self.pass(opened, at);
        }
        opened.sort();
        done[slot.0 as usize] = true;
    }
}
