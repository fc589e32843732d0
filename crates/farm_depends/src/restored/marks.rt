//! Marks of met groups, as the groups are put back in their order.

ghost use Rattle.std.specs.Prelude.{◌≡◌, ◌<◌, true, drop, length, slice_get, IfOk, OnOk};
ghost use Rattle.farm_types.specs.Farm.{for_some};
ghost use Rattle.farm_depends.specs.Restored.{after_mark, is_mark_of, is_next, marks_along, rest_along};

use farm_types::{DependNo, Group, MetRow};
use std::alloc::{AllocError, Global};

/// Whether each of the groups is marked, where the marks from a place on are those of the depend and of later ones. The place moves on to those of
/// the later ones.
pub(crate) fn marks_along(
    alloc: Global,
    met: &[MetRow],
    at: &mut usize,
    depend: DependNo,
    groups: &[Group],
) -> Result<Vec<bool>, AllocError>
    ensures marks { IfOk result (λ marks. marks.items ≡ marks_along depend groups.now (drop at.old met.now)) }
    ensures rest { OnOk result (drop at.new met.now ≡ rest_along depend groups.now (drop at.old met.now)) }
{
    let mut marks = Vec::new(alloc);
    for group in groups {
        let marked = take_mark(met, at, depend, group);
        marks.push(marked)?;
    }
    Ok(marks)
}

// Whether the mark at the place is the group's. If so, the place moves on to the next.
#[tactic(auto, using(crate::proofs::RestoringLemmas::RestoredMarks::first_left, crate::proofs::RestoringLemmas::RestoredMarks::left_twice))]
fn take_mark(met: &[MetRow], at: &mut usize, depend: DependNo, group: &Group) -> bool
    ensures marked { result ≡ is_next depend group.now (drop at.old met.now) }
    ensures rest { drop at.new met.now ≡ after_mark result (drop at.old met.now) }
{
    let marked = is_mark_at(met, *at, depend, group);
    if marked {
        *at += 1;
    }
    marked
}

// Whether the mark at a place is the group's.
fn is_mark_at(met: &[MetRow], at: usize, depend: DependNo, group: &Group) -> bool
    ensures marked { result ≡ for_some (slice_get met.now at) (is_mark_of depend group.now) }
    ensures within { result ≡ true → at < length met.now }
{
    match met.get(at) {
        None => false,
        Some(mark) => mark.depend == depend && mark.position == group.position,
    }
}
