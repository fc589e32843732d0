//! Which frames of a job its own depends block.

ghost use Rattle.std.specs.Prelude.{◌≡◌, ◌||◌, ◌++◌, ◌<◌, ℕ, true, length, filter, IfOk, OnOk};
ghost use Rattle.std.specs.List.{list_all};
ghost use Rattle.farm_types.specs.Groups.{all_slots};
ghost use Rattle.depend_graph.specs.Graph.{is_below, is_flagged};
ghost use Rattle.farm_depends.specs.Coming.{all_unmet_by, unmet_by};
ghost use Rattle.farm_depends.specs.Follow.{is_listed};

use crate::marks::{is_marked, mark, no_marks};
use depend_book::{Depends, NewDepend};
use farm_types::{Group, Items, LayerShape, Slot};
use std::alloc::{AllocError, Global};

/// Those of the layers' frames that wait unmet by the depends, in order. No slot stands twice among them.
pub(crate) fn blocked_own(
    alloc: Global,
    depends: &Depends,
    layers: &[LayerShape],
    all: &[NewDepend],
) -> Result<Items<Slot>, AllocError>
    requires { list_all is_below (all_slots layers.now) ≡ true }
    ensures { IfOk result (λ blocked. blocked ≡ filter (is_listed (all_unmet_by depends.now.graph.done all.now)) (all_slots layers.now)) }
{
    let mut marks = no_marks(alloc)?;
    mark_all(&mut marks, depends, all);
    let blocked = marked_among(alloc, marks.as_slice(), layers)?;
    Ok(blocked)
}

// Marks the frames that wait unmet by the depends.
fn mark_all(marks: &mut Vec<bool>, depends: &Depends, all: &[NewDepend])
    ensures marks { (slot : ℕ) → slot < length marks.old.items → is_flagged marks.new.items slot
        ≡ (is_flagged marks.old.items slot || is_listed (all_unmet_by depends.now.graph.done all.now) slot) }
    ensures count { length marks.new.items ≡ length marks.old.items }
{
    for new in all {
        mark_unmet(marks, depends, new.groups.as_slice());
    }
}

// Marks the frames that wait in those groups that wouldn't be met at once.
fn mark_unmet(marks: &mut Vec<bool>, depends: &Depends, groups: &[Group])
    ensures marks { (slot : ℕ) → slot < length marks.old.items → is_flagged marks.new.items slot
        ≡ (is_flagged marks.old.items slot || is_listed (unmet_by depends.now.graph.done groups.now) slot) }
    ensures count { length marks.new.items ≡ length marks.old.items }
{
    for group in groups {
        if depends.is_met_at_once(group) {
            continue;
        }
        mark(marks, group.waiters.as_slice());
    }
}

// Those of the layers' slots that are marked.
fn marked_among(
    alloc: Global,
    marks: &[bool],
    layers: &[LayerShape],
) -> Result<Items<Slot>, AllocError>
    ensures { IfOk result (λ marked. marked ≡ filter (is_flagged marks.now) (all_slots layers.now)) }
{
    let mut marked = Items::new(alloc);
    for layer in layers {
        add_marked(&mut marked, marks, layer.slots.as_slice())?;
    }
    Ok(marked)
}

// Adds those of the slots that are marked.
fn add_marked(marked: &mut Items<Slot>, marks: &[bool], slots: &[Slot]) -> Result<(), AllocError>
    ensures { OnOk result (marked.new ≡ marked.old ++ filter (is_flagged marks.now) slots.now) }
{
    for slot in slots {
        if !is_marked(marks, *slot) {
            continue;
        }
        marked.push(*slot)?;
    }
    Ok(())
}
