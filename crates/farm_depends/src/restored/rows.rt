//! Depends that are put back as the farm has them.

ghost use Rattle.std.specs.Prelude.{◌≡◌, ◌≤◌, drop, IfOk, OnOk};
ghost use Rattle.farm_types.specs.Depends.{groups_of};
ghost use Rattle.farm_types.specs.Groups.{part_at, part_of};
ghost use Rattle.farm_types.specs.Kept.{KeepsRows};
ghost use Rattle.farm_depends.specs.Restored.{CanRestoreRow, groups_for, rest_along, row_restored};

use crate::restored::marks::marks_along;
use depend_kinds::groups;
use farm_books::Books;
use farm_places::part_shape;
use farm_types::{DependEnd, DependRow, DependSpec, Group, Items, MetRow, Place, Text};
use std::alloc::{AllocError, Global};

/// Puts a depend back, where the marks from a place on are its own and those of later ones. The place moves on to those of the later ones.
pub(crate) fn restore_row(
    alloc: Global,
    books: &mut Books,
    row: &DependRow,
    met: &[MetRow],
    at: &mut usize,
) -> Result<(), AllocError>
    requires kept { KeepsRows books.old.farm }
    requires above { books.old.farm.next_depend ≤ row.now.depend }
    requires can { CanRestoreRow books.old row.now (drop at.old met.now) }
    ensures books { OnOk result (books.new ≡ row_restored books.old row.now (drop at.old met.now)) }
    ensures rest { OnOk result (drop at.new met.now ≡ rest_along row.now.depend (groups_for books.old.farm row.now) (drop at.old met.now)) }
{
    let groups = groups_for(alloc, books, row)?;
    let marks = marks_along(alloc, met, at, row.depend, groups.as_slice())?;
    let spare = books.reserve_depend(alloc, &groups)?;
    let copy = row.copy(alloc)?;
    books.skip_depends(u64::from(row.depend.0));
    books.restore_depend(spare, copy, groups, marks.as_slice());
    Ok(())
}

// The groups of the depend, and none of one that is satisfied.
fn groups_for(alloc: Global, books: &Books, row: &DependRow) -> Result<Items<Group>, AllocError>
    requires { KeepsRows books.now.farm }
    ensures { IfOk result (λ groups. groups ≡ groups_for books.now.farm row.now) }
{
    if row.met_all {
        return Ok(Items::new(alloc));
    }
    groups_of(alloc, books, row)
}

// The groups of the depend.
fn groups_of(alloc: Global, books: &Books, row: &DependRow) -> Result<Items<Group>, AllocError>
    requires { KeepsRows books.now.farm }
    ensures { IfOk result (λ groups. groups ≡ groups_of books.now.farm row.now) }
{
    let waiter = part_shape(alloc, books.jobs(), row.waiter.job, &row.waiter.layer)?;
    let target = part_shape(alloc, books.jobs(), row.target.job, &row.target.layer)?;
    let spec = spec_of(alloc, row)?;
    groups(alloc, &spec, &waiter, &target)
}

// What was asked for, but for the names of the jobs, which its groups don't depend on.
fn spec_of(alloc: Global, row: &DependRow) -> Result<DependSpec, AllocError>
    ensures kind { IfOk result (λ spec. spec.kind ≡ row.now.kind) }
    ensures any { IfOk result (λ spec. spec.any ≡ row.now.any) }
    ensures waiter { IfOk result (λ spec. part_of spec.waiter ≡ part_at row.now.waiter) }
    ensures target { IfOk result (λ spec. part_of spec.target ≡ part_at row.now.target) }
{
    Ok(DependSpec {
        kind: row.kind,
        any: row.any,
        waiter: place_of(alloc, &row.waiter)?,
        target: place_of(alloc, &row.target)?,
    })
}

// The end without its job.
fn place_of(alloc: Global, end: &DependEnd) -> Result<Place, AllocError>
    ensures { IfOk result (λ place. part_of place ≡ part_at end.now) }
{
    let copy = end.copy(alloc)?;
    Ok(Place {
        job: Text::from_str(alloc, "")?,
        layer: copy.layer,
        frame: copy.frame,
    })
}
