//! A copy of the books.

ghost use Rattle.std.specs.Prelude.{◌≡◌, IfOk};
ghost use Rattle.depend_book.specs.Book.{no_depends};
ghost use Rattle.farm_books.specs.Books.{with_depends};

use crate::books::Books;
use depend_book::Depends;
use std::alloc::{AllocError, Global};

impl Books {
    /// Books of the same rows without their depends, in all the memory that books of no rows have.
    pub fn copy_without_depends(&self, alloc: Global) -> Result<Books, AllocError>
        ensures { IfOk result (λ books. books ≡ with_depends self.now no_depends) }
    {
        Ok(Books {
            shows: self.shows.copy(alloc)?,
            allocs: self.allocs.copy(alloc)?,
            attempts: self.attempts.copy(alloc)?,
            limits: self.limits.copy(alloc)?,
            hosts: self.hosts.copy(alloc)?,
            jobs: self.jobs.copy(alloc)?,
            depends: Depends::make(alloc)?,
            moment: self.moment,
            recorded: self.recorded,
        })
    }
}
