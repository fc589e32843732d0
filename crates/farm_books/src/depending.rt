//! The depends: their book, and one call for each change of it.

ghost use Rattle.std.specs.Prelude.{◌≡◌, ◌≤◌, ◌+◌, true, map, option_copied, IfOk};
ghost use Rattle.farm_types.specs.DependActs.{depend_at};
ghost use Rattle.farm_types.specs.declared.limits.TheConstants.{LAST_DEPEND};
ghost use Rattle.depend_graph.specs.Graph.{has_depend};
ghost use Rattle.depend_graph.specs.Spare.{spare_of};
ghost use Rattle.depend_book.specs.Book.{IsBook, all_done_in, done_in, dropped_in, marks_of, without_waiter_in};
ghost use Rattle.depend_book.specs.Restored.{CanRestore, skipped, with_restored};
ghost use Rattle.farm_books.specs.Books.{depends_of, with_depends};
ghost use Rattle.farm_books.specs.Coming.{CanAddAll, spare_for, with_new_all};

use crate::books::Books;
use depend_book::{Depends, NewDepend};
use depend_graph::GraphSpare;
use farm_types::{DependNo, DependRow, Group, Items, JobNo, Slot};
use std::alloc::{AllocError, Global};

impl Books {
    /// What the books keep of the depends, as all books do.
    pub fn kept(&self)
        ensures met { self.now.farm.met ≡ marks_of self.now.graph.depends }
        ensures book { IsBook (depends_of self.now) }
    {
        self.depends.kept();
    }

    /// The depend of that number.
    pub fn depend(&self, depend: DependNo) -> Option<&DependRow>
        ensures { option_copied result ≡ depend_at self.now.farm depend }
    {
        self.depends.row(depend)
    }

    /// The depends, and which of their groups are met.
    pub fn depends(&self) -> &Depends
        ensures { result.now ≡ depends_of self.now }
    {
        &self.depends
    }

    /// Takes the memory for the groups of one depend. The books are as before.
    pub fn reserve_depend(
        &mut self,
        alloc: Global,
        groups: &Items<Group>,
    ) -> Result<GraphSpare, AllocError>
        ensures books { self.new ≡ self.old }
        ensures reserved { IfOk result (λ spare. spare ≡ spare_of groups.now) }
    {
        self.depends.reserve(alloc, groups)
    }

    /// Takes the memory for the groups of these depends. The books are as before.
    pub fn reserve_depends(
        &mut self,
        alloc: Global,
        coming: &[NewDepend],
    ) -> Result<Items<GraphSpare>, AllocError>
        ensures books { self.new ≡ self.old }
        ensures reserved { IfOk result (λ spares. spares ≡ map spare_for coming.now) }
    {
        reserve_all(&mut self.depends, alloc, coming)
    }

    /// The depends are added, each in the memory that was taken for its groups.
    pub fn add_depends(&mut self, spares: Items<GraphSpare>, coming: Items<NewDepend>)
        requires reserved { spares ≡ map spare_for coming }
        requires can { CanAddAll (depends_of self.old) coming }
        ensures { self.new ≡ with_depends self.old (with_new_all (depends_of self.old) coming) }
    {
        add_all(&mut self.depends, spares, coming);
    }

    /// All groups of the depend are met.
    pub fn drop_depend(&mut self, depend: DependNo)
        requires { has_depend self.old.graph depend ≡ true }
        ensures { self.new ≡ with_depends self.old (dropped_in (depends_of self.old) depend) }
    {
        self.depends.drop_depend(depend);
    }

    /// The frame in the slot is done, or isn't any more, as the depends see it.
    pub fn set_done(&mut self, slot: Slot, done: bool)
        ensures { self.new ≡ with_depends self.old (done_in (depends_of self.old) slot done) }
    {
        self.depends.set_done(slot, done);
    }

    /// The frames in the slots are done, as the depends see it.
    pub fn complete(&mut self, slots: &[Slot])
        ensures { self.new ≡ with_depends self.old (all_done_in (depends_of self.old) slots.now) }
    {
        self.depends.complete(slots);
    }

    /// The depends in which the job waits go, with their groups.
    pub fn forget_waiter(&mut self, job: JobNo)
        ensures { self.new ≡ with_depends self.old (without_waiter_in (depends_of self.old) job) }
    {
        self.depends.forget_waiter(job);
    }

    /// The next depend's number is that one, past numbers that no depend has any more.
    pub fn skip_depends(&mut self, next: u64)
        requires above { self.old.farm.next_depend ≤ next }
        requires within { next ≤ LAST_DEPEND + 1 }
        ensures { self.new ≡ with_depends self.old (skipped (depends_of self.old) next) }
    {
        self.depends.skip_to(next);
    }

    /// Puts a depend back with its groups, in the memory that was taken for them. A group is met where its targets are done, or where a mark stands at
    /// its place among the groups.
    pub fn restore_depend(
        &mut self,
        spare: GraphSpare,
        row: DependRow,
        groups: Items<Group>,
        marks: &[bool],
    )
        requires reserved { spare ≡ spare_of groups }
        requires can { CanRestore (depends_of self.old) row groups marks.now }
        ensures { self.new ≡ with_depends self.old (with_restored (depends_of self.old) row groups marks.now) }
    {
        self.depends.restore(spare, row, groups, marks);
    }
}

// Takes the memory of each depend that comes.
fn reserve_all(
    depends: &mut Depends,
    alloc: Global,
    coming: &[NewDepend],
) -> Result<Items<GraphSpare>, AllocError>
    ensures book { depends.new ≡ depends.old }
    ensures spares { IfOk result (λ spares. spares ≡ map spare_for coming.now) }
{
    let mut spares = Items::new(alloc);
    for depend in coming {
        spares.push(depends.reserve(alloc, &depend.groups)?)?;
    }
    Ok(spares)
}

// Depends come, in the memory that was taken for each.
fn add_all(depends: &mut Depends, spares: Items<GraphSpare>, coming: Items<NewDepend>)
    requires reserved { spares ≡ map spare_for coming }
    requires can { CanAddAll depends.old coming }
    ensures { depends.new ≡ with_new_all depends.old coming }
{
    let mut spares = spares.into_vec().into_iter();
    for depend in coming.into_vec() {
        let Some(spare) = spares.next() else {
            unreachable!()
        };
        depends.add(spare, depend);
    }
}
