//! Takes the memory of what follows an act, and takes what follows into the books.

ghost use Rattle.std.specs.Prelude.{◌≡◌, map, All, IfOk};
ghost use Rattle.farm_books.specs.Books.{depends_of};
ghost use Rattle.farm_depends.specs.Follow.{CanFollow, HasDrop, books_after, drop_from, reopened_from, spare_for};

use crate::follow::Follow;
use crate::moving::{block_all, open_all};
use depend_graph::GraphSpare;
use farm_books::Books;
use farm_types::{DependNo, Items, Slot};
use std::alloc::{AllocError, Global};

/// Takes the memory that the depends need which come, so that applying takes none. The books are as before.
pub fn reserve_follow(
    books: &mut Books,
    alloc: Global,
    follow: &Follow,
) -> Result<Items<GraphSpare>, AllocError>
    ensures books { books.new ≡ books.old }
    ensures spares { IfOk result (λ spares. spares ≡ map spare_for follow.now.depends) }
{
    books.reserve_depends(alloc, follow.depends.as_slice())
}

/// Takes what follows into the books: depends come or go, frames are done, or not any more, open, or are blocked. Its memory was taken; it takes none.
pub fn apply_follow(books: &mut Books, follow: Follow)
    requires { CanFollow books.old.farm.slots (depends_of books.old) follow }
    ensures { books.new ≡ books_after books.old follow }
{
    let Follow {
        depends: coming,
        spares,
        dropped,
        done,
        marks: _,
        reopened,
        opened,
        blocked,
        raises,
        count: _,
    } = follow;
    books.add_depends(spares, coming);
    drop_one(books, dropped);
    reopen_one(books, reopened);
    books.complete(done.as_slice());
    open_all(books, opened.as_slice());
    block_all(books, blocked.as_slice(), raises);
}

// All groups of the depend are met, where one is dropped.
fn drop_one(books: &mut Books, dropped: Option<DependNo>)
    requires { HasDrop (depends_of books.old) dropped }
    ensures { books.new ≡ drop_from books.old dropped }
{
    match dropped {
        None => {}
        Some(depend) => books.drop_depend(depend),
    }
}

// The frame in the slot isn't done any more, where there is one.
fn reopen_one(books: &mut Books, reopened: Option<Slot>)
    ensures { books.new ≡ reopened_from books.old reopened }
{
    match reopened {
        None => {}
        Some(slot) => books.set_done(slot, false),
    }
}
