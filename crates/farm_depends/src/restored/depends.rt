//! The depends of rows and marks that a farm has.

ghost use Rattle.std.specs.Prelude.{◌≡◌, true, IfOk, if◌then◌else◌};
ghost use Rattle.farm_types.specs.Kept.{IsKeptFarm};
ghost use Rattle.farm_rows.specs.Changes.{beside};
ghost use Rattle.depend_book.specs.Book.{done_in, no_depends};
ghost use Rattle.farm_books.specs.Books.{IsWhole, depends_of, with_depends};
ghost use Rattle.farm_depends.specs.Restored.{IsFlagged};

use crate::completing::is_done_in;
use crate::restored::rows::restore_row;
use farm_books::Books;
use farm_types::{DependRow, MetRow, Slot};
use std::alloc::{AllocError, Global};

/// The books, which have no depends, with these depends, marks of met groups and next depend's number. The rows are in the order of their numbers, and
/// the marks in that of the depends and of their groups.
pub fn restore_depends(
    alloc: Global,
    books: Books,
    rows: &[DependRow],
    met: &[MetRow],
    next: u64,
) -> Result<Books, AllocError>
    requires none { depends_of books ≡ no_depends }
    requires kept { IsKeptFarm (beside books.farm rows.now met.now next) }
    ensures farm { IfOk result (λ made. made.farm ≡ beside books.farm rows.now met.now next) }
    ensures whole { IfOk result (λ made. IsWhole made) }
{
    let mut restored = books;
    flag_all(&mut restored);
    let mut at = 0;
    for row in rows {
        restore_row(alloc, &mut restored, row, met, &mut at)?;
    }
    restored.skip_depends(next);
    Ok(restored)
}

// Sets the flags of all frames that are done.
fn flag_all(books: &mut Books)
    requires { depends_of books.old ≡ no_depends }
    ensures rest { books.new ≡ with_depends books.old (depends_of books.new) }
    ensures flagged { IsFlagged books.old.farm.slots (depends_of books.new) }
{
    books.kept();
    let count = books.slots().len();
    for place in 0..count {
        let slot = Slot(place as u32);
        let done = is_done_in(books, slot);
        flag(books, slot, done);
    }
}

// Sets the flag of the slot, if its frame is done.
fn flag(books: &mut Books, slot: Slot, done: bool)
    ensures { books.new ≡ (if done then with_depends books.old (done_in (depends_of books.old) slot true) else books.old) }
{
    if done {
        books.set_done(slot, true);
    }
}
