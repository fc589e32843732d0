//! The rows of depends in the order of their numbers, and of each job the row that came last.

ghost use Rattle.std.specs.Prelude.{◌≡◌, ◌==◌, ◌≤◌, ◌<◌, ◌++◌, ◌∷◌, [], find, length, nat_lt, option_copied, option_map, IfOk, IfNone, IfSome};
ghost use Rattle.farm_types.specs.declared.limits.TheConstants.{LAST_DEPEND, MOST_DEPENDS};
ghost use Rattle.depend_book.specs.Rows.{IsTaken, WaitsInNone, no_rows, rows_skipped, with_row};
ghost use Rattle.depend_book.specs.Satisfied.{satisfied_all};

use crate::newest::{last_in, note, number_of};
use crate::places::{
    empty, first_there, place_above, place_of, push_place, row_at, satisfy_places,
};
use crate::room::make_room;
use farm_types::{DependNo, DependRow, JobNo, MOST_DEPENDS};
use indexmap::IndexMap;
use std::alloc::{AllocError, Global};
use std::marker::Model;

/// A row, and the number of the row of the same job that came before it. One that is gone keeps its number, by which its place is found.
#[derive(Debug, Drop)]
pub(crate) struct RowPlace {
    pub(crate) row: DependRow,
    pub(crate) older: Option<DependNo>,
    pub(crate) gone: bool,
}

/// The rows and the next number. Rows that go leave their places, which are closed up once there is none left at the end.
#[derive(Debug, Drop)]
pub(crate) struct RowList {
    pub(crate) places: Vec<RowPlace>,
    pub(crate) newest: IndexMap<u32, Option<DependNo>>,
    pub(crate) count: usize,
    pub(crate) next: u64,
}

impl Model for RowList {
    ghost use Rattle.depend_book.specs.Rows as types;

    ghost Value = { types.RowLists };

    ghost use Rattle.depend_book.specs.RowsInside.{KeepsRows, rows_in};

    ghost view = { rows_in };

    ghost invariant = { KeepsRows };
}

impl RowList {
    /// No rows, and the memory for all.
    pub(crate) fn make(alloc: Global) -> Result<RowList, AllocError>
        ensures { IfOk result (λ r. r ≡ no_rows) }
    {
        Ok(RowList {
            places: Vec::with_capacity(alloc, 2 * MOST_DEPENDS as usize)?,
            newest: IndexMap::with_capacity(alloc, 2 * MOST_DEPENDS as usize)?,
            count: 0,
            next: 1,
        })
    }

    /// The row of that number.
    pub(crate) fn row(&self, depend: DependNo) -> Option<&DependRow>
        ensures { option_copied result ≡ find (λ d. d.depend == depend) self.now.rows }
    {
        row_at(
            self.places.as_slice(),
            place_of(self.places.as_slice(), depend),
        )
    }

    /// The least number above `after`.
    pub(crate) fn next_above(&self, after: u32) -> Option<DependNo>
        ensures { result ≡ option_map (λ d. d.depend) (find (λ d. nat_lt after d.depend) self.now.rows) }
    {
        first_there(
            self.places.as_slice(),
            place_above(self.places.as_slice(), after),
        )
    }

    /// How many rows there are.
    pub(crate) fn count(&self) -> usize
        ensures { result ≡ length self.now.rows }
    {
        self.count
    }

    /// The next number.
    pub(crate) fn next(&self) -> u64
        ensures { result ≡ self.now.next }
    {
        self.next
    }

    /// One row more, with the next number. It takes no memory.
    pub(crate) fn push(&mut self, row: DependRow)
        requires number { row.depend ≡ self.old.next }
        requires number_left { self.old.next ≤ LAST_DEPEND }
        requires room { length self.old.rows < MOST_DEPENDS }
        ensures { self.new ≡ with_row self.old row }
    {
        make_room(&mut self.places, &mut self.newest);
        push_place(&mut self.places, &mut self.newest, row);
        self.count += 1;
        self.next += 1;
    }

    /// The next number is that one. It takes no memory.
    pub(crate) fn skip_to(&mut self, next: u64)
        requires { self.old.next ≤ next }
        ensures { self.new ≡ rows_skipped self.old next }
    {
        self.next = next;
    }

    /// The depends of those numbers are satisfied. It takes no memory.
    pub(crate) fn satisfy_all(&mut self, depends: &[DependNo])
        ensures rows { self.new.rows ≡ satisfied_all depends.now self.old.rows }
        ensures next { self.new.next ≡ self.old.next }
    {
        satisfy_places(&mut self.places, depends);
    }

    /// The last row of those in which the job waits goes. The result is its number. It takes no memory.
    pub(crate) fn take_newest(&mut self, job: JobNo) -> Option<DependNo>
        ensures none { IfNone result (WaitsInNone job self.old.rows) }
        ensures same { IfNone result (self.new ≡ self.old) }
        ensures some { IfSome result (λ depend. IsTaken job depend self.old.rows self.new.rows) }
        ensures next { self.new.next ≡ self.old.next }
    {
        let number = number_of(job);
        let Some(depend) = last_in(&self.newest, number) else {
            return None;
        };
        let older = empty(&mut self.places, depend);
        note(&mut self.newest, number, older);
        self.count -= 1;
        Some(depend)
    }
}
