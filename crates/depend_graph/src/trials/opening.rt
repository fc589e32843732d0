//! What a change would open and meet.

ghost use Rattle.std.specs.Prelude.{◌≡◌, true, false, IfOk, All, map, nat_eq};
ghost use Rattle.std.specs.List.{IsDistinct};
ghost use Rattle.depend_graph.specs.Graph.{HasMet, group_mark, groups_at, has_depend, is_flagged, opened_between, with_all_done, without_depend};
ghost use Rattle.depend_graph.specs.MetAt.{has_mark};

use crate::going::dropping::{find_place, place_of};
use crate::graph::Graph;
use crate::group_marks::{has_mark_in, marks_in};
use crate::trials::completion::Completion;
use crate::trials::marks::Marks;
use crate::trials::opens::opened_by;
use crate::trials::trying::{free_left, try_all};
use farm_types::{DependNo, Items, MetRow, Slot};
use std::alloc::{AllocError, Global};

impl Graph {
    /// What would come of these frames, were they done: which frames would open, and what would be met. No slot stands twice among them, and none is done.
    /// Nothing changes. Where no group is unmet, or none of the frames is a target, nothing opens and no memory is taken.
    pub fn would_complete(&self, alloc: Global, done: &[Slot]) -> Result<Completion, AllocError>
        requires differ { IsDistinct nat_eq done.now }
        requires undone { All (λ slot. is_flagged self.now.done slot ≡ false) done.now }
        ensures opened { IfOk result (λ c. c.opened ≡ opened_between self.now.depends (with_all_done self.now done.now).depends) }
        ensures marks { IfOk result (λ c. HasMet self.now.depends (with_all_done self.now done.now).depends c.marks) }
    {
        if self.tally.left == 0 {
            return Ok(Completion {
                opened: Items::new(alloc),
                marks: Marks::none(alloc),
            });
        }
        let trial = try_all(
            alloc,
            self.first.as_slice(),
            self.tally.depends.as_slice(),
            done,
        )?;
        trial.completion(alloc, self.tally.unmet.as_slice())
    }

    /// The marks that the depend's groups have once they are met, in order, whether they are met yet or not, and none where the depend isn't there.
    pub fn marks_of(&self, alloc: Global, depend: DependNo) -> Result<Items<MetRow>, AllocError>
        ensures { IfOk result (λ marks. marks ≡ map (group_mark depend) (groups_at self.now.depends depend)) }
    {
        let Some(place) = find_place(self.tally.depends.as_slice(), depend) else {
            return Ok(Items::new(alloc));
        };
        marks_in(alloc, &self.tally.depends[place as usize])
    }

    /// Whether a group of the depend at that position is marked: it is met, and another group of the depend isn't.
    pub fn is_marked(&self, depend: DependNo, position: u32) -> bool
        ensures { result ≡ has_mark position (groups_at self.now.depends depend) }
    {
        match find_place(self.tally.depends.as_slice(), depend) {
            None => false,
            Some(place) => has_mark_in(&self.tally.depends[place as usize], position),
        }
    }

    /// The frames that would open if the depend was dropped, by slot, in order.
    pub fn would_open_without(
        &self,
        alloc: Global,
        depend: DependNo,
    ) -> Result<Items<Slot>, AllocError>
        requires { has_depend self.now depend ≡ true }
        ensures { IfOk result (λ slots. slots ≡ opened_between self.now.depends (without_depend self.now depend).depends) }
    {
        let mut freed = Vec::new(alloc);
        let place = place_of(self.tally.depends.as_slice(), depend);
        free_left(&self.tally.depends[place as usize], &mut freed)?;
        opened_by(alloc, self.tally.unmet.as_slice(), freed.as_slice())
    }
}
