//! Frames are done or not any more, and depends are dropped.

ghost use Rattle.std.specs.Prelude.{◌≡◌, ◌<◌, false, length, not, slice_set, true};
ghost use Rattle.depend_graph.specs.Graph.{HasOpened, has_depend, is_flagged, with_done, without_depend};

use crate::going::dropping::place_of;
use crate::graph::{Graph, is_flagged_at};
use crate::progress::opened::Opened;
use crate::progress::reopening::reopen;
use depend_edges::first_of;
use farm_types::{DependNo, Slot};

impl Graph {
    /// The frame is done, or isn't any more. Groups are met whose targets are done now, and `opened` tells what that opened. It takes no memory.
    pub fn set_done(&mut self, slot: Slot, done: bool, opened: &mut Opened)
        ensures graph { self.new ≡ with_done self.old slot done }
        ensures opened { HasOpened self.old.depends self.new.depends opened.new }
    {
        opened.clear();
        if !is_change(self.done.as_slice(), slot, done) {
            return;
        }
        let first = first_of(self.first.as_slice(), slot);
        if !done {
            reopen(&mut self.done, first, &mut self.tally.depends, slot);
            return;
        }
        self.tally.complete(&mut self.done, first, opened, slot);
    }

    /// All groups of the depend are met, and `opened` tells what that opened. It takes no memory.
    pub fn drop_depend(&mut self, depend: DependNo, opened: &mut Opened)
        requires { has_depend self.old depend ≡ true }
        ensures graph { self.new ≡ without_depend self.old depend }
        ensures opened { HasOpened self.old.depends self.new.depends opened.new }
    {
        opened.clear();
        let place = place_of(self.tally.depends.as_slice(), depend);
        self.tally.meet_all(opened, place);
    }
}

// Whether there is a flag of the slot, which isn't so yet.
#[tactic(auto, using(crate::proofs::ProgressLemmas::Unchanged::flag_stays, crate::proofs::ProgressLemmas::Unchanged::flag_past))]
fn is_change(done: &[bool], slot: Slot, flag: bool) -> bool
    ensures stays { result ≡ false → slice_set done.now slot flag ≡ done.now }
    ensures within { result ≡ true → slot < length done.now }
    ensures differs { result ≡ true → is_flagged done.now slot ≡ not flag }
{
    if slot.0 as usize >= done.len() {
        return false;
    }
    if flag {
        return !is_flagged_at(done, slot);
    }
    is_flagged_at(done, slot)
}
