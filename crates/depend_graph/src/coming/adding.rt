//! A depend is added.

ghost use Rattle.std.specs.Prelude.{◌≡◌, ◌==◌, ◌+◌, ◌≤◌, if◌then◌else◌};
ghost use Rattle.farm_types.specs.declared.limits.TheConstants.{MOST_GROUPS};
ghost use Rattle.depend_graph.specs.Graph.{CanAdd, with_depend};
ghost use Rattle.depend_graph.specs.Marked.{with_marked};
ghost use Rattle.depend_graph.specs.Spare.{spare_of};

use crate::coming::counting::{count_all, hold_all, unmet_among};
use crate::coming::marking::mark_all;
use crate::coming::spare::GraphSpare;
use crate::going::room::make_room;
use crate::graph::Graph;
use depend_edges::{Listed, link};
use farm_types::{DependNo, Group, Items};

impl Graph {
    /// Adds a depend with its groups, in the memory that was taken for them. A group is met at once where its targets are done. It takes no memory.
    pub fn add(&mut self, spare: GraphSpare, depend: DependNo, groups: Items<Group>)
        requires reserved { spare ≡ spare_of groups }
        requires can { CanAdd self.old depend groups }
        ensures { self.new ≡ with_depend self.old depend groups }
    {
        self.add_marked(spare, depend, groups, &[]);
    }

    /// Adds a depend with its groups, in the memory that was taken for them. A group is met at once where its targets are done, or where a mark
    /// stands at its place among the depend's groups. It takes no memory.
    pub fn add_marked(
        &mut self,
        spare: GraphSpare,
        depend: DependNo,
        groups: Items<Group>,
        marks: &[bool],
    )
        requires reserved { spare ≡ spare_of groups }
        requires can { CanAdd self.old depend groups }
        ensures { self.new ≡ with_marked self.old depend groups marks.now }
    {
        make_room(&mut self.first, &mut self.tally.depends);
        let GraphSpare { mut counts, edges } = spare;
        count_all(&mut counts, groups.as_slice(), self.done.as_slice());
        mark_all(&mut counts, marks);
        hold_all(&mut self.tally.unmet, groups.as_slice(), counts.as_slice());
        let unmet = unmet_among(counts.as_slice());
        self.tally.left = raised_left(self.tally.left, unmet, groups.len());
        let place = self.tally.depends.len() as u32;
        self.tally
            .depends
            .push_reserved(Listed::new(depend, groups, counts, edges, unmet));
        link(&mut self.first, &mut self.tally.depends, place);
    }
}

// How many groups are left with so many more, where some of those aren't met.
fn raised_left(left: u32, unmet: u32, count: usize) -> u32
    requires { left + count ≤ MOST_GROUPS }
    ensures { result ≡ (if unmet == 0 then left else left + count) }
{
    if unmet == 0 {
        left
    } else {
        left + count as u32
    }
}
