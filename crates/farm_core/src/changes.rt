//! The rows of the store that change.

ghost use Rattle.std.specs.Prelude.{◌≡◌, ◌+◌, ◌-◌, ◌<◌, ◌^◌, ◌++◌, length, IfOk, OnOk, if◌then◌else◌};
ghost use Rattle.farm_rows.specs.declared.row_key.RowKey.{RowKey};
ghost use Rattle.farm_rows.specs.Changes.{row_after, row_at};
ghost use Rattle.farm_rows.specs.Rows.{head_row};
ghost use Rattle.farm_books.specs.Books.{IsWhole};
ghost use Rattle.farm_depends.specs.Follow.{HasMarks};
ghost use Rattle.farm_core.specs.Change.{IsReady, Makes, Plans, after_change};
ghost use Rattle.farm_changes.specs.Change.{adds_job};

use crate::change::Change;
use crate::farm::Farm;
use farm_books::Books;
use farm_depends::follow_rows;
use farm_finish::finish_rows;
use farm_rows::{FarmRow, HeadRow, ROW_FORMAT, RowChange, exactly};
use farm_types::Entry;
use std::alloc::{AllocError, Global};

impl Farm {
    /// The change of the entry then has exactly those of the rows in which this farm and the one that it makes differ, each as it will be.
    pub(crate) fn put_rows(
        &self,
        alloc: Global,
        entry: &Entry,
        change: &mut Change,
        rows: Vec<RowChange>,
    ) -> Result<(), AllocError>
        requires planned { Plans self.now entry.now change.old }
        requires rows { (k : RowKey) → row_at (after_change self.now change.old) k ≡ row_after rows.items k (row_at self.now k) }
        ensures { OnOk result (Makes self.now entry.now change.new) }
    {
        let exact = exactly(alloc, self, rows)?;
        change.rows = exact;
        Ok(())
    }
}

/// The rows that the change of the entry makes, one after the other: those of its act, of what follows, and of the jobs that finish, and the farm's
/// own.
pub(crate) fn rows_of_change(
    alloc: Global,
    books: &Books,
    entry: &Entry,
    change: &Change,
) -> Result<Vec<RowChange>, AllocError>
    requires whole { IsWhole books.now }
    requires made { Plans books.now.farm entry.now change.now }
    requires marks { HasMarks books.now.graph change.now.follow }
    ensures { IfOk result (λ rows. (k : RowKey) → row_at (after_change books.now.farm change.now) k ≡ row_after rows.items k (row_at books.now.farm k)) }
{
    books.kept();
    let mut rows = change.act.row_changes(alloc, books)?;
    let followed = follow_rows(alloc, books, rows.as_slice(), &change.follow)?;
    let finished = finish_rows(
        alloc,
        books,
        entry,
        &change.act,
        &change.follow,
        change.finish.as_slice(),
    )?;
    add_all(&mut rows, followed)?;
    add_all(&mut rows, finished)?;
    rows.push(RowChange::Put(FarmRow::Head(head_after(books, change))))?;
    Ok(rows)
}

// The changes come after the others.
fn add_all(rows: &mut Vec<RowChange>, more: Vec<RowChange>) -> Result<(), AllocError>
    ensures { OnOk result (rows.new.items ≡ rows.old.items ++ more.items) }
{
    let mut more = more;
    rows.append(&mut more)?;
    Ok(())
}

// The farm's own row after the change.
fn head_after(books: &Books, change: &Change) -> HeadRow
    requires whole { IsWhole books.now }
    requires ready { IsReady books.now.farm change.now }
    ensures { result ≡ head_row (after_change books.now.farm change.now) }
{
    books.kept();
    let finish = books.jobs().next_finish() + change.finish.len() as u64;
    let depend = books.depends().next_number() + change.follow.depends.len() as u64;
    HeadRow {
        format: ROW_FORMAT,
        moment: change.act.moment(),
        jobs: next_job_after(books, change),
        finishes: finish,
        depends: depend,
    }
}

// The next job's number after the change.
fn next_job_after(books: &Books, change: &Change) -> u64
    requires { books.now.farm.next_job < 2 ^ 64 - 1 }
    ensures { result ≡ (if adds_job change.now.act.more then books.now.farm.next_job + 1 else books.now.farm.next_job) }
{
    let next = books.jobs().next_number();
    if change.act.adds_job() {
        return next + 1;
    }
    next
}
