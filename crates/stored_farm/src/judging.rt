//! Whether a depend, or a mark of a met group, fits the rows so far.

ghost use Rattle.std.specs.Prelude.{◌≡◌, ◌≤◌, ◌&&◌, ◌+◌, ◌-◌, nat_le, nat_lt, IfOk};
ghost use Rattle.farm_types.specs.Forms.{is_between};
ghost use Rattle.farm_types.specs.declared.limits.TheConstants.{MOST_GROUPS};
ghost use Rattle.stored_farm.specs.Judged.{groups_pass, has_its_forms, is_mark_among, passes, passes_unmet};
ghost use Rattle.stored_farm.specs.Marks.{DependsRise, EachRises};

use crate::depend_forms::is_formed;
use crate::marks::{has_position, place_of};
use crate::self_waits::waits_for_itself;
use farm_types::{DependRow, Group, Items, MOST_DEPENDS, MOST_GROUPS, MetRow};
use std::alloc::{AllocError, Global};
use stored_rows::StoredRows;

/// Whether a depend of these groups fits the rows so far, where there are so many depends, and so many groups.
pub(crate) fn depend_fits(
    alloc: Global,
    rows: &StoredRows,
    count: usize,
    left: u32,
    depend: &DependRow,
    groups: &[Group],
) -> Result<bool, AllocError>
    requires { left ≤ MOST_GROUPS }
    ensures { IfOk result (λ fits. fits ≡ passes rows.now.farm count left depend.now groups.now) }
{
    if !is_recorded(rows) {
        return Ok(false);
    }
    if !has_its_forms(rows, count, depend) {
        return Ok(false);
    }
    fits_unmet(alloc, rows, left, depend, groups)
}

/// Whether the farm's own row came.
pub(crate) fn is_recorded(rows: &StoredRows) -> bool
    ensures { result ≡ rows.now.farm.recorded }
{
    rows.lists().recorded
}

// Whether the depend has its number and its forms, there is room for it, and its waiting end is there.
fn has_its_forms(rows: &StoredRows, count: usize, depend: &DependRow) -> bool
    ensures { result ≡ has_its_forms rows.now.farm count depend.now }
{
    is_below(depend.depend.0, rows.next_depend())
        && (count < MOST_DEPENDS as usize
            && (is_formed(depend) && rows.end_is_there(&depend.waiter)))
}

// Whether the number is from 1 to below the next.
fn is_below(number: u32, next: u64) -> bool
    ensures { result ≡ is_between 1 (next - 1) number }
{
    1 <= number && u64::from(number) < next
}

// Whether the depend is satisfied, or its other end is there and its groups fit.
fn fits_unmet(
    alloc: Global,
    rows: &StoredRows,
    left: u32,
    depend: &DependRow,
    groups: &[Group],
) -> Result<bool, AllocError>
    requires { left ≤ MOST_GROUPS }
    ensures { IfOk result (λ fits. fits ≡ passes_unmet rows.now.farm left depend.now groups.now) }
{
    if depend.met_all {
        return Ok(true);
    }
    if !rows.end_is_there(&depend.target) {
        return Ok(false);
    }
    groups_fit(alloc, left, groups)
}

// Whether no frame waits for itself, there is a group, and there is room for all of them.
fn groups_fit(alloc: Global, left: u32, groups: &[Group]) -> Result<bool, AllocError>
    requires { left ≤ MOST_GROUPS }
    ensures { IfOk result (λ fits. fits ≡ groups_pass left groups.now) }
{
    if waits_for_itself(alloc, groups)? {
        return Ok(false);
    }
    Ok(has_room(left, groups.len()))
}

// Whether there is a group, and room for so many.
fn has_room(left: u32, count: usize) -> bool
    requires { left ≤ MOST_GROUPS }
    ensures { result ≡ (nat_lt 0 count && nat_le (left + count) MOST_GROUPS) }
{
    0 < count && count <= (MOST_GROUPS - left) as usize
}

/// Whether the groups of the mark's depend have its position.
pub(crate) fn mark_fits(depends: &[DependRow], groups: &[Items<Group>], mark: &MetRow) -> bool
    requires depends { DependsRise depends.now }
    requires groups { EachRises groups.now }
    ensures { result ≡ is_mark_among depends.now groups.now mark.now }
{
    let place = place_of(depends, mark.depend.0);
    let Some(groups) = groups.get(place) else {
        return false;
    };
    has_position(groups.as_slice(), mark.position)
}
