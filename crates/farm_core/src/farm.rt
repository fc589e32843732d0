//! The farm.

ghost use Rattle.std.specs.Prelude.{◌≡◌, IfOk};
ghost use Rattle.farm_types.specs.Farm.{empty_farm};
ghost use Rattle.farm_types.specs.Kept.{IsKeptFarm};
ghost use Rattle.farm_books.specs.Books.{IsWhole};

use farm_books::Books;
use std::alloc::{AllocError, Global};
use std::marker::Model;

/// A farm, which contracts see as its rows. It holds its books, and keeps what every farm keeps (`IsKeptFarm` of `farm_types`).
#[derive(Drop)]
pub struct Farm {
    pub(crate) books: Books,
}

impl Model for Farm {
    ghost use Rattle.farm_types.specs.Farm as types;
    ghost use Rattle.farm_books.specs.Books.{IsWhole};

    ghost Value = { types.Farm };

    ghost view = { λ a. a.books.farm };

    ghost invariant = { λ a. IsWhole a.books };
}

impl Farm {
    /// The farm of no rows. It takes the memory of its books.
    pub fn make(alloc: Global) -> Result<Farm, AllocError>
        ensures { IfOk result (λ f. f ≡ empty_farm) }
    {
        Ok(Farm {
            books: Books::make(alloc)?,
        })
    }

    /// What this farm keeps, as every farm does.
    pub fn kept(&self)
        ensures { IsKeptFarm self.now }
    {
        let _books = &self.books;
    }

    /// The farm's books, by which it is read.
    pub fn books(&self) -> &Books
        ensures farm { result.now.farm ≡ self.now }
        ensures whole { IsWhole result.now }
    {
        &self.books
    }
}
