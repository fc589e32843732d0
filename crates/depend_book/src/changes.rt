//! Depends that come and go, and frames that are done.

ghost use Rattle.std.specs.Prelude.{◌≡◌, true, IfOk};
ghost use Rattle.std.specs.List.{list_all};
ghost use Rattle.farm_types.specs.Depends.{are_done};
ghost use Rattle.depend_graph.specs.Graph.{has_depend, is_flagged};
ghost use Rattle.depend_graph.specs.Spare.{spare_of};
ghost use Rattle.depend_book.specs.Book.{CanAdd, all_done_in, done_in, dropped_in, with_new};

use crate::depends::Depends;
use crate::new_depend::NewDepend;
use depend_graph::GraphSpare;
use farm_types::{DependNo, DependRow, Group, Items, Slot};
use std::alloc::{AllocError, Global};

impl Depends {
    /// Takes the memory for the groups of one depend.
    pub fn reserve(
        &mut self,
        alloc: Global,
        groups: &Items<Group>,
    ) -> Result<GraphSpare, AllocError>
        ensures book { self.new ≡ self.old }
        ensures spare { IfOk result (λ spare. spare ≡ spare_of groups.now) }
    {
        self.graph.reserve(alloc, groups)
    }

    /// Adds a depend, in the memory that was taken for its groups. It takes no memory.
    pub fn add(&mut self, spare: GraphSpare, depend: NewDepend)
        requires reserved { spare ≡ spare_of depend.groups }
        requires can { CanAdd self.old depend }
        ensures { self.new ≡ with_new self.old depend }
    {
        let number = DependNo(self.rows.next() as u32);
        let NewDepend {
            kind,
            any,
            waiter,
            target,
            groups,
        } = depend;
        let met_all = self.are_met_at_once(&groups);
        let row = DependRow {
            depend: number,
            kind,
            any,
            met_all,
            waiter,
            target,
        };
        self.rows.push(row);
        self.graph.add(spare, number, groups);
    }

    /// The frame in the slot is done, or isn't any more. It takes no memory.
    pub fn set_done(&mut self, slot: Slot, done: bool)
        ensures { self.new ≡ done_in self.old slot done }
    {
        self.graph.set_done(slot, done, &mut self.opened);
        self.rows.satisfy_all(self.opened.satisfied());
    }

    /// The frames in the slots are done. It takes no memory.
    pub fn complete(&mut self, slots: &[Slot])
        ensures { self.new ≡ all_done_in self.old slots.now }
    {
        for slot in slots {
            self.set_done(*slot, true);
        }
    }

    /// All groups of the depend are met. It takes no memory.
    pub fn drop_depend(&mut self, depend: DependNo)
        requires { has_depend self.old.graph depend ≡ true }
        ensures { self.new ≡ dropped_in self.old depend }
    {
        self.graph.drop_depend(depend, &mut self.opened);
        self.rows.satisfy_all(self.opened.satisfied());
    }

    /// Whether all groups would be met at once.
    pub fn are_met_at_once(&self, groups: &Items<Group>) -> bool
        ensures { result ≡ list_all (are_done (is_flagged self.now.graph.done)) groups.now }
    {
        groups
            .as_slice()
            .iter()
            .all(|group| self.graph.is_met_at_once(group))
    }
}
