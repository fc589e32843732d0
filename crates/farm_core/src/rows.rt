//! All rows of the farm, as the store has them.

ghost use Rattle.std.specs.Prelude.{◌≡◌, ◌++◌, filter, map, IfOk, OnOk};
ghost use Rattle.farm_types.specs.Rising.{depend_key};
ghost use Rattle.farm_rows.specs.declared.farm_row.FarmRow.TheVariants as row;
ghost use Rattle.farm_rows.specs.Rows.{rows_of};
ghost use Rattle.farm_books.specs.Books.{IsWhole, depends_of};
ghost use Rattle.farm_core.specs.AllRows.{depend_rows, is_told, marks_there, marks_told, row_told, rows_told};
ghost use Rattle.depend_book.specs.Book.{row_in};

use crate::farm::Farm;
use crate::old_rows::head;
use depend_book::Depends;
use farm_books::Books;
use farm_rows::FarmRow;
use farm_types::{DependNo, Items, MetRow};
use std::alloc::{AllocError, Global};

impl Farm {
    /// Copies of the farm's rows, by kind, then number: none where no entry has made the farm. The only error is that memory ran out.
    pub fn rows(&self, alloc: Global) -> Result<Items<FarmRow>, AllocError>
        ensures { IfOk result (λ rows. rows ≡ rows_of self.now) }
    {
        if !self.books.is_recorded() {
            return Ok(Items::new(alloc));
        }
        let mut rows = Vec::new(alloc);
        rows.push(FarmRow::Head(head(&self.books)))?;
        self.books.push_rows(alloc, &mut rows)?;
        push_depends(alloc, &self.books, &mut rows)?;
        self.books.push_limits(alloc, &mut rows)?;
        Ok(Items::from_vec(rows))
    }
}

/// The rows of depends go behind the others, and behind them those of their marks.
pub(crate) fn push_depends(
    alloc: Global,
    books: &Books,
    rows: &mut Vec<FarmRow>,
) -> Result<(), AllocError>
    requires { IsWhole books.now }
    ensures { OnOk result (rows.new.items ≡ rows.old.items ++ depend_rows (depends_of books.now)) }
{
    books.kept();
    let depends = books.depends();
    let numbers = numbers_of(alloc, depends)?;
    push_rows_of(alloc, depends, numbers.as_slice(), rows)?;
    push_marks_of(alloc, depends, numbers.as_slice(), rows)
}

// The depends' numbers, in order.
fn numbers_of(alloc: Global, depends: &Depends) -> Result<Items<DependNo>, AllocError>
    ensures { IfOk result (λ numbers. numbers ≡ map depend_key depends.now.rows) }
{
    depends.kept();
    let mut numbers = Items::new(alloc);
    let mut after = 0;
    while let Some(depend) = depends.next(after) {
        numbers.push(depend)?;
        after = depend.0;
    }
    Ok(numbers)
}

// The rows of these depends go behind the others.
fn push_rows_of(
    alloc: Global,
    depends: &Depends,
    numbers: &[DependNo],
    rows: &mut Vec<FarmRow>,
) -> Result<(), AllocError>
    ensures { OnOk result (rows.new.items ≡ rows.old.items ++ rows_told depends.now numbers.now) }
{
    for depend in numbers {
        push_row_of(alloc, depends, *depend, rows)?;
    }
    Ok(())
}

// The row of a depend goes behind the others.
fn push_row_of(
    alloc: Global,
    depends: &Depends,
    depend: DependNo,
    rows: &mut Vec<FarmRow>,
) -> Result<(), AllocError>
    ensures { OnOk result (rows.new.items ≡ rows.old.items ++ row_told (row_in depends.now depend)) }
{
    let Some(row) = depends.row(depend) else {
        return Ok(());
    };
    rows.push(FarmRow::Depend(row.copy(alloc)?))?;
    Ok(())
}

// The marks of these depends go behind the others.
fn push_marks_of(
    alloc: Global,
    depends: &Depends,
    numbers: &[DependNo],
    rows: &mut Vec<FarmRow>,
) -> Result<(), AllocError>
    ensures { OnOk result (rows.new.items ≡ rows.old.items ++ marks_told depends.now.graph.depends numbers.now) }
{
    for depend in numbers {
        push_marks_there(alloc, depends, *depend, rows)?;
    }
    Ok(())
}

// The marks of a depend go behind the others.
fn push_marks_there(
    alloc: Global,
    depends: &Depends,
    depend: DependNo,
    rows: &mut Vec<FarmRow>,
) -> Result<(), AllocError>
    ensures { OnOk result (rows.new.items ≡ rows.old.items ++ map row.Met (marks_there depends.now.graph.depends depend)) }
{
    let marks = depends.marks_of(alloc, depend)?;
    push_told(depends, marks.as_slice(), rows)
}

// Those of these marks that are there go behind the others.
fn push_told(depends: &Depends, marks: &[MetRow], rows: &mut Vec<FarmRow>) -> Result<(), AllocError>
    ensures { OnOk result (rows.new.items ≡ rows.old.items ++ map row.Met (filter (is_told depends.now.graph.depends) marks.now)) }
{
    for mark in marks {
        if !depends.is_marked(mark.depend, mark.position) {
            continue;
        }
        rows.push(FarmRow::Met(*mark))?;
    }
    Ok(())
}
