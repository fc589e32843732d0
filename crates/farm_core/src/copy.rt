//! A copy of the farm.

ghost use Rattle.std.specs.Prelude.{◌≡◌, ◌++◌, IfOk, OnOk};
ghost use Rattle.farm_core.specs.AllRows.{depend_listed, depends_listed, mark_listed, marks_listed};

use crate::farm::Farm;
use crate::rows::push_depends;
use farm_depends::restore_depends;
use farm_rows::FarmRow;
use farm_types::{DependRow, MetRow};
use std::alloc::{AllocError, Global};

impl Farm {
    /// An equal farm. The only error is that memory ran out.
    pub fn copy(&self, alloc: Global) -> Result<Farm, AllocError>
        ensures { IfOk result (λ farm. farm ≡ self.now) }
    {
        let mut rows = Vec::new(alloc);
        push_depends(alloc, &self.books, &mut rows)?;
        let mut depends = Vec::new(alloc);
        let mut met = Vec::new(alloc);
        push_listed(alloc, rows.as_slice(), &mut depends, &mut met)?;
        let books = self.books.copy_without_depends(alloc)?;
        let whole = restore_depends(
            alloc,
            books,
            depends.as_slice(),
            met.as_slice(),
            self.books.depends().next_number(),
        )?;
        Ok(Farm { books: whole })
    }
}

// The depends and the marks among these rows go behind the others.
fn push_listed(
    alloc: Global,
    rows: &[FarmRow],
    depends: &mut Vec<DependRow>,
    met: &mut Vec<MetRow>,
) -> Result<(), AllocError>
    ensures depends { OnOk result (depends.new.items ≡ depends.old.items ++ depends_listed rows.now) }
    ensures met { OnOk result (met.new.items ≡ met.old.items ++ marks_listed rows.now) }
{
    for row in rows {
        push_one(alloc, row, depends, met)?;
    }
    Ok(())
}

// The row goes behind those of its kind, if it is a depend's or a mark's.
fn push_one(
    alloc: Global,
    row: &FarmRow,
    depends: &mut Vec<DependRow>,
    met: &mut Vec<MetRow>,
) -> Result<(), AllocError>
    ensures depends { OnOk result (depends.new.items ≡ depends.old.items ++ depend_listed row.now) }
    ensures met { OnOk result (met.new.items ≡ met.old.items ++ mark_listed row.now) }
{
    match row {
        FarmRow::Depend(depend) => depends.push(depend.copy(alloc)?)?,
        FarmRow::Met(mark) => met.push(*mark)?,
        _ => {}
    }
    Ok(())
}
