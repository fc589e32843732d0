//! The book, and what is read of it.

ghost use Rattle.std.specs.Prelude.{◌≡◌, ◌≤◌, true, false, length, option_copied, All, IfOk, map, nat_eq};
ghost use Rattle.std.specs.List.{IsDistinct, list_any};
ghost use Rattle.farm_types.specs.Depends.{are_done};
ghost use Rattle.farm_types.specs.declared.limits.TheConstants.{MOST_DEPENDS, MOST_GROUPS};
ghost use Rattle.depend_graph.specs.Graph.{HasMet, groups_at, groups_left, has_depend, is_flagged, is_mark, opened_between, unmet_of, with_all_done};
ghost use Rattle.depend_graph.specs.Graph.{without_depend};
ghost use Rattle.depend_book.specs.Book.{IsBook, mark_of, marks_of, next_in, no_depends, row_in};

use crate::row_list::RowList;
use depend_graph::{Completion, Graph, Opened};
use farm_types::{DependNo, DependRow, Group, Items, MetRow, Slot};
use std::alloc::{AllocError, Global};
use std::marker::Model;

/// The depends in the order of their numbers, and the graph of their groups.
#[derive(Drop)]
pub struct Depends {
    pub(crate) rows: RowList,
    pub(crate) graph: Graph,
    pub(crate) opened: Opened,
}

impl Model for Depends {
    ghost use Rattle.depend_book.specs.Book as types;

    ghost Value = { types.DependLists };

    ghost use Rattle.depend_book.specs.Inside.{KeepsBook, lists_of};

    ghost view = { lists_of };

    ghost invariant = { KeepsBook };
}

impl Depends {
    /// The book of no depends. It takes the memory of all rows and all slots.
    pub fn make(alloc: Global) -> Result<Depends, AllocError>
        ensures { IfOk result (λ b. b ≡ no_depends) }
    {
        Ok(Depends {
            rows: RowList::make(alloc)?,
            graph: Graph::make(alloc)?,
            opened: Opened::make(alloc)?,
        })
    }

    /// What this book keeps, as every one does.
    pub fn kept(&self)
        ensures { IsBook self.now }
    {
        let _rows = &self.rows;
    }

    /// The depend of that number.
    pub fn row(&self, depend: DependNo) -> Option<&DependRow>
        ensures { option_copied result ≡ row_in self.now depend }
    {
        self.rows.row(depend)
    }

    /// The number of the depend with the least number above `after`.
    pub fn next(&self, after: u32) -> Option<DependNo>
        ensures { result ≡ next_in self.now after }
    {
        self.rows.next_above(after)
    }

    /// How many depends there are.
    pub fn count(&self) -> usize
        ensures value { result ≡ length self.now.rows }
        ensures within { result ≤ MOST_DEPENDS }
    {
        self.rows.count()
    }

    /// The next depend's number, one past the last where none is left.
    pub fn next_number(&self) -> u64
        ensures { result ≡ self.now.next }
    {
        self.rows.next()
    }

    /// How many groups the depends have together that aren't satisfied.
    pub fn groups_left(&self) -> u32
        ensures value { result ≡ groups_left self.now.graph.depends }
        ensures within { result ≤ MOST_GROUPS }
    {
        self.graph.groups_left()
    }

    /// How many unmet groups the frame in the slot waits in.
    pub fn unmet(&self, slot: Slot) -> u32
        ensures { result ≡ unmet_of self.now.graph.depends slot }
    {
        self.graph.unmet(slot)
    }

    /// Whether the group would be met at once.
    pub fn is_met_at_once(&self, group: &Group) -> bool
        ensures { result ≡ are_done (is_flagged self.now.graph.done) group.now }
    {
        self.graph.is_met_at_once(group)
    }

    /// What would come of these frames, were they done: which frames would open, and what would be met. No slot stands twice among them, and none is done.
    /// Nothing changes.
    pub fn would_complete(&self, alloc: Global, done: &[Slot]) -> Result<Completion, AllocError>
        requires differ { IsDistinct nat_eq done.now }
        requires undone { All (λ slot. is_flagged self.now.graph.done slot ≡ false) done.now }
        ensures opened { IfOk result (λ c. c.opened ≡ opened_between self.now.graph.depends (with_all_done self.now.graph done.now).depends) }
        ensures marks { IfOk result (λ c. HasMet self.now.graph.depends (with_all_done self.now.graph done.now).depends c.marks) }
    {
        self.graph.would_complete(alloc, done)
    }

    /// The marks that the depend's groups have once they are met, in order, whether they are met yet or not, and none where the depend isn't there.
    pub fn marks_of(&self, alloc: Global, depend: DependNo) -> Result<Items<MetRow>, AllocError>
        ensures { IfOk result (λ marks. marks ≡ map (mark_of depend) (groups_at self.now.graph.depends depend)) }
    {
        self.graph.marks_of(alloc, depend)
    }

    /// Whether there is a mark of that position of the depend: a group there is met, and another group of the depend isn't.
    pub fn is_marked(&self, depend: DependNo, position: u32) -> bool
        ensures { result ≡ list_any (is_mark depend position) (marks_of self.now.graph.depends) }
    {
        self.kept();
        self.graph.is_marked(depend, position)
    }

    /// The frames that would open if the depend was dropped, by slot, in order.
    pub fn would_open_without(
        &self,
        alloc: Global,
        depend: DependNo,
    ) -> Result<Items<Slot>, AllocError>
        requires { has_depend self.now.graph depend ≡ true }
        ensures { IfOk result (λ slots. slots ≡ opened_between self.now.graph.depends (without_depend self.now.graph depend).depends) }
    {
        self.graph.would_open_without(alloc, depend)
    }
}
