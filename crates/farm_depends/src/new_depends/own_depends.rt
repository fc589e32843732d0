//! Depends of a job that is to be placed.

ghost use Rattle.std.specs.Prelude.{◌≡◌, ◌≤◌, All};
ghost use Rattle.farm_types.specs.declared.limits.TheConstants.{MOST_GROUPS};
ghost use Rattle.depend_graph.specs.Graph.{IsGroup};
ghost use Rattle.farm_depends.specs.Coming.{ComeAll, Comes};
ghost use Rattle.farm_types.specs.Faults.{Refuses};
ghost use Rattle.farm_depends.specs.Placed.{CanPlace, GroupsBetween, IsOwn, own_groups, own_refusal, placed};

use crate::new_depends::checks::waits_for_itself;
use crate::new_depends::own_job::{OwnJob, name_in, own_end};
use crate::new_depends::room::{Counts, check_full, counts_more};
use crate::refused::self_depend;
use depend_book::NewDepend;
use depend_kinds::groups;
use farm_books::Books;
use farm_places::find_end;
use farm_types::{DependEnd, DependSpec, FarmFault, Group, Items, JobSpec, LayerShape, Shape};
use std::alloc::Global;

/// The depends of a job that is to be placed, in turn, or the first refusal.
pub(crate) fn all_coming(
    alloc: Global,
    books: &Books,
    job: &JobSpec,
    own: &OwnJob,
    counts: Counts,
) -> Result<Items<NewDepend>, FarmFault>
    requires can { CanPlace books.now.farm job.now }
    requires own { IsOwn books.now.farm job.now own.now }
    requires within { counts.groups ≤ MOST_GROUPS }
    ensures { ComeAll (placed books.now.farm job.now) counts job.now.depends result }
{
    let mut counts = counts;
    let mut all = Items::new(alloc);
    for spec in job.depends.as_slice() {
        let new = own_coming(alloc, books, job, own, &counts, spec)?;
        counts = counts_more(&counts, new.groups.len());
        all.push(new)?;
    }
    Ok(all)
}

// A depend in which the job waits, or why the farm refuses it.
fn own_coming(
    alloc: Global,
    books: &Books,
    job: &JobSpec,
    own: &OwnJob,
    counts: &Counts,
    spec: &DependSpec,
) -> Result<NewDepend, FarmFault>
    requires can { CanPlace books.now.farm job.now }
    requires own { IsOwn books.now.farm job.now own.now }
    requires waiter { spec.now.waiter.job ≡ job.now.name }
    requires within { counts.now.groups ≤ MOST_GROUPS }
    ensures { Comes (placed books.now.farm job.now) counts.now spec.now result }
{
    let waiter = own_end(alloc, own, &spec.waiter)?;
    if spec.target.job.is(job.name.as_str()) {
        let target = own_end(alloc, own, &spec.target)?;
        let groups = groups_between(alloc, own, &own.shape, counts, spec)?;
        return Ok(new_depend(spec, waiter, target, groups));
    }
    let target = find_end(alloc, books, &spec.target)?;
    let groups = groups_between(alloc, own, &target.shape, counts, spec)?;
    Ok(new_depend(spec, waiter, target.end, groups))
}

// The depend between two ends.
fn new_depend(
    spec: &DependSpec,
    waiter: DependEnd,
    target: DependEnd,
    groups: Items<Group>,
) -> NewDepend
    ensures { result ≡ record { kind = spec.now.kind; any = spec.now.any; waiter = waiter; target = target; groups = groups } }
{
    NewDepend {
        kind: spec.kind,
        any: spec.any,
        waiter,
        target,
        groups,
    }
}

// The groups of a depend in which the job waits for frames of that shape, or why they are refused.
fn groups_between(
    alloc: Global,
    own: &OwnJob,
    target: &Shape,
    counts: &Counts,
    spec: &DependSpec,
) -> Result<Items<Group>, FarmFault>
    requires within { counts.now.groups ≤ MOST_GROUPS }
    requires each { All IsGroup (own_groups own.now target.now spec.now) }
    ensures { GroupsBetween own.now target.now counts.now spec.now result }
{
    let groups = groups(alloc, spec, &own.shape, target)?;
    check_own(alloc, own.shape.layers.as_slice(), counts, &groups)?;
    Ok(groups)
}

// Refuses groups in which a frame of the job waits for itself, and those for which there is no room.
fn check_own(
    alloc: Global,
    layers: &[LayerShape],
    counts: &Counts,
    groups: &Items<Group>,
) -> Result<(), FarmFault>
    requires within { counts.now.groups ≤ MOST_GROUPS }
    requires each { All IsGroup groups.now }
    ensures { Refuses (own_refusal layers.now counts.now groups.now) result }
{
    let found = waits_for_itself(alloc, groups.as_slice())?;
    let Some(slot) = found else {
        return check_full(counts, groups.len());
    };
    let frame = name_in(alloc, layers, slot)?;
    Err(self_depend(frame))
}
