//! The groups of a depend, while frames may lack slots.

ghost use Rattle.std.specs.Prelude.{◌≡◌, IfOk};
ghost use Rattle.farm_types.specs.Groups.{part_at, part_of};
ghost use Rattle.farm_rows.specs.Recovery.{groups_so_far};
ghost use Rattle.stored_farm.specs.Kept.{groups_kept};

use farm_types::{DependEnd, DependRow, DependSpec, Group, Items, Place, SLOT_LIMIT, Text};
use std::alloc::{AllocError, Global};
use stored_rows::StoredRows;

/// The groups of a depend that isn't satisfied. Waiting frames without a slot stand at the number past all slots, and targets without one at
/// the number after it.
pub(crate) fn groups_kept(
    alloc: Global,
    rows: &StoredRows,
    depend: &DependRow,
) -> Result<Items<Group>, AllocError>
    ensures { IfOk result (λ groups. groups ≡ groups_kept rows.now.farm depend.now) }
{
    if depend.met_all {
        return Ok(Items::new(alloc));
    }
    groups_so_far(alloc, rows, depend)
}

// The groups of a depend.
#[tactic(auto, unfolding(farm_rows::specs::Recovery::groups_so_far))]
fn groups_so_far(
    alloc: Global,
    rows: &StoredRows,
    depend: &DependRow,
) -> Result<Items<Group>, AllocError>
    ensures { IfOk result (λ groups. groups ≡ groups_so_far rows.now.farm depend.now) }
{
    let waiter = rows.shape(alloc, depend.waiter.job, SLOT_LIMIT)?;
    let target = rows.shape(alloc, depend.target.job, SLOT_LIMIT + 1)?;
    let spec = spec_of(alloc, depend)?;
    depend_kinds::groups(alloc, &spec, &waiter, &target)
}

// A depend with the kind and the parts of this one. Its ends name no job.
fn spec_of(alloc: Global, depend: &DependRow) -> Result<DependSpec, AllocError>
    ensures kind { IfOk result (λ spec. spec.kind ≡ depend.now.kind) }
    ensures any { IfOk result (λ spec. spec.any ≡ depend.now.any) }
    ensures waiter { IfOk result (λ spec. part_of spec.waiter ≡ part_at depend.now.waiter) }
    ensures target { IfOk result (λ spec. part_of spec.target ≡ part_at depend.now.target) }
{
    let waiter = place_of(alloc, &depend.waiter)?;
    let target = place_of(alloc, &depend.target)?;
    Ok(DependSpec {
        kind: depend.kind,
        any: depend.any,
        waiter,
        target,
    })
}

// The part that an end names, of no job.
fn place_of(alloc: Global, end: &DependEnd) -> Result<Place, AllocError>
    ensures { IfOk result (λ place. part_of place ≡ part_at end.now) }
{
    let DependEnd {
        job: _job,
        layer,
        frame,
    } = end.copy(alloc)?;
    Ok(Place {
        job: Text::from_str(alloc, "")?,
        layer,
        frame,
    })
}
