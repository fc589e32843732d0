//! The marks of a depend's groups.

ghost use Rattle.std.specs.Prelude.{◌≡◌, IfOk, length, map};
ghost use Rattle.std.specs.List.{list_any};
ghost use Rattle.depend_edges.specs.Listed.{IsListed};
ghost use Rattle.depend_graph.specs.MetAt.{has_mark, is_met_at};
ghost use Rattle.depend_graph.specs.Watches.{mark_for, watched_by, watched_with};

use depend_edges::{Count, Listed};
use farm_types::{DependNo, Group, Items, MetRow};
use std::alloc::{AllocError, Global};

/// The marks that the depend's groups have once they are met, in order.
pub(crate) fn marks_in(alloc: Global, listed: &Listed) -> Result<Items<MetRow>, AllocError>
    ensures { IfOk result (λ marks. marks ≡ map (mark_for listed.now.depend) listed.now.groups) }
{
    marks_for(alloc, listed.number(), listed.groups())
}

// The marks that groups of a depend have once they are met.
fn marks_for(alloc: Global, depend: DependNo, groups: &[Group]) -> Result<Items<MetRow>, AllocError>
    ensures { IfOk result (λ marks. marks ≡ map (mark_for depend) groups.now) }
{
    let mut marks = Items::new(alloc);
    for group in groups {
        marks.push(MetRow {
            depend,
            position: group.position,
        })?;
    }
    Ok(marks)
}

/// Whether a group at that position is marked: it is met, and another one isn't.
pub(crate) fn has_mark_in(listed: &Listed, position: u32) -> bool
    requires { IsListed listed.now }
    ensures { result ≡ has_mark position (watched_with listed.now.groups listed.now.counts) }
{
    if listed.unmet() == 0 {
        return false;
    }
    is_met_among(listed.groups(), listed.counts(), position)
}

// Whether a group at that position is met.
fn is_met_among(groups: &[Group], counts: &[Count], position: u32) -> bool
    requires { length counts.now ≡ length groups.now }
    ensures { result ≡ list_any (is_met_at position) (watched_with groups.now counts.now) }
{
    for place in 0..groups.len() {
        if is_met_there(&groups[place], counts[place], position) {
            return true;
        }
    }
    false
}

// Whether the group is met, and at that position.
fn is_met_there(group: &Group, count: Count, position: u32) -> bool
    ensures { result ≡ is_met_at position (watched_by group.now count) }
{
    count.met && group.position == position
}
