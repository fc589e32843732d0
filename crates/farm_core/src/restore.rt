//! The farm of given lists.

ghost use Rattle.std.specs.Prelude.{◌≡◌, IfOk};
ghost use Rattle.farm_types.specs.Kept.{IsKeptFarm};
ghost use Rattle.farm_core.specs.Restore.{whole_in};

use crate::farm::Farm;
use farm_books::Books;
use farm_depends::restore_depends;
use farm_rows::BookLists;
use farm_types::{DependRow, MetRow};
use std::alloc::{AllocError, Global};

impl Farm {
    /// The farm of these lists, depends, marks of met groups and next depend's number, which together are a farm that keeps what every farm keeps.
    /// The depends are in the order of their numbers, and the marks in that of the depends and of their groups. The only error is that memory ran
    /// out.
    pub fn of_lists(
        alloc: Global,
        lists: BookLists,
        depends: Vec<DependRow>,
        met: Vec<MetRow>,
        next_depend: u64,
    ) -> Result<Farm, AllocError>
        requires { IsKeptFarm (whole_in lists depends.items met.items next_depend) }
        ensures { IfOk result (λ f. f ≡ whole_in lists depends.items met.items next_depend) }
    {
        let books = Books::of_lists(alloc, lists)?;
        let whole = restore_depends(
            alloc,
            books,
            depends.as_slice(),
            met.as_slice(),
            next_depend,
        )?;
        Ok(Farm { books: whole })
    }
}
