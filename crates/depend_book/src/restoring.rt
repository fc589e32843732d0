//! Depends that are put back as they were kept.

ghost use Rattle.std.specs.Prelude.{◌≡◌, ◌≤◌, ◌+◌};
ghost use Rattle.farm_types.specs.declared.limits.TheConstants.{LAST_DEPEND};
ghost use Rattle.depend_graph.specs.Spare.{spare_of};
ghost use Rattle.depend_book.specs.Restored.{CanRestore, skipped, with_restored};

use crate::depends::Depends;
use crate::places::depend_of;
use depend_graph::GraphSpare;
use farm_types::{DependRow, Group, Items};

impl Depends {
    /// The next depend's number is that one, past numbers that no depend has any more. It takes no memory.
    pub fn skip_to(&mut self, next: u64)
        requires above { self.old.next ≤ next }
        requires within { next ≤ LAST_DEPEND + 1 }
        ensures { self.new ≡ skipped self.old next }
    {
        self.rows.skip_to(next);
    }

    /// Puts a row back with its depend's groups, in the memory that was taken for them. A group is met where its targets are done, or where a mark
    /// stands at its place among the groups. It takes no memory.
    pub fn restore(
        &mut self,
        spare: GraphSpare,
        row: DependRow,
        groups: Items<Group>,
        marks: &[bool],
    )
        requires reserved { spare ≡ spare_of groups }
        requires can { CanRestore self.old row groups marks.now }
        ensures { self.new ≡ with_restored self.old row groups marks.now }
    {
        let number = depend_of(&row);
        self.rows.push(row);
        self.graph.add_marked(spare, number, groups, marks);
    }
}
