//! Depends that come.

ghost use Rattle.std.specs.Prelude.{◌≤◌, All};
ghost use Rattle.farm_types.specs.Kept.{KeepsRows};
ghost use Rattle.farm_types.specs.declared.limits.TheConstants.{MOST_GROUPS};
ghost use Rattle.depend_graph.specs.Graph.{IsGroup};
ghost use Rattle.farm_depends.specs.Coming.{Comes, groups_refusal_with};
ghost use Rattle.farm_types.specs.Faults.{Refuses};
ghost use Rattle.farm_places.specs.Ends.{IsEnd};

use crate::new_depends::checks::{check_self, check_started};
use crate::new_depends::room::{Counts, check_full};
use depend_book::NewDepend;
use depend_kinds::groups;
use farm_books::Books;
use farm_places::{FoundEnd, find_end};
use farm_types::{DependSpec, FarmFault, Group, Items};
use std::alloc::Global;

/// A depend as the farm makes it of what is asked, where there is so much room, or why the farm refuses it.
pub(crate) fn coming(
    alloc: Global,
    books: &Books,
    counts: &Counts,
    spec: &DependSpec,
) -> Result<NewDepend, FarmFault>
    requires kept { KeepsRows books.now.farm }
    requires within { counts.now.groups ≤ MOST_GROUPS }
    ensures { Comes books.now.farm counts.now spec.now result }
{
    let waiter = find_end(alloc, books, &spec.waiter)?;
    let target = find_end(alloc, books, &spec.target)?;
    between(alloc, books, counts, spec, waiter, target)
}

// A depend between two ends that are there.
fn between(
    alloc: Global,
    books: &Books,
    counts: &Counts,
    spec: &DependSpec,
    waiter: FoundEnd,
    target: FoundEnd,
) -> Result<NewDepend, FarmFault>
    requires kept { KeepsRows books.now.farm }
    requires within { counts.now.groups ≤ MOST_GROUPS }
    requires waiter { IsEnd books.now.farm spec.now.waiter waiter }
    requires target { IsEnd books.now.farm spec.now.target target }
    ensures { Comes books.now.farm counts.now spec.now result }
{
    let groups = groups(alloc, spec, &waiter.shape, &target.shape)?;
    check_groups(alloc, books, counts, &groups)?;
    Ok(NewDepend {
        kind: spec.kind,
        any: spec.any,
        waiter: waiter.end,
        target: target.end,
        groups,
    })
}

// Refuses groups in which a frame waits for itself or runs, and those for which there is no room.
fn check_groups(
    alloc: Global,
    books: &Books,
    counts: &Counts,
    groups: &Items<Group>,
) -> Result<(), FarmFault>
    requires within { counts.now.groups ≤ MOST_GROUPS }
    requires each { All IsGroup groups.now }
    ensures { Refuses (groups_refusal_with books.now.farm counts.now groups.now) result }
{
    check_self(alloc, books, groups.as_slice())?;
    check_started(alloc, books, groups.as_slice())?;
    check_full(counts, groups.len())
}
