//! Marks on slots.

ghost use Rattle.std.specs.Prelude.{◌≡◌, ◌||◌, ◌<◌, ◌==◌, ℕ, false, length, replicate, find, IfOk};
ghost use Rattle.std.specs.List.{list_any};
ghost use Rattle.depend_graph.specs.Graph.{is_flagged};
ghost use Rattle.farm_types.specs.declared.limits.TheConstants.{SLOT_LIMIT};
ghost use Rattle.farm_depends.specs.Follow.{is_listed};

use farm_types::{SLOT_LIMIT, Slot};
use std::alloc::{AllocError, Global};

/// A mark for each slot of the farm, with none set.
pub(crate) fn no_marks(alloc: Global) -> Result<Vec<bool>, AllocError>
    ensures { IfOk result (λ marks. marks.items ≡ replicate SLOT_LIMIT false) }
{
    Ok(vec![in alloc; false; SLOT_LIMIT as usize]?)
}

/// Sets the marks of the slots. A slot past the farm's is left out.
pub(crate) fn mark(marks: &mut Vec<bool>, slots: &[Slot])
    ensures marks { (slot : ℕ) → slot < length marks.old.items → is_flagged marks.new.items slot
        ≡ (is_flagged marks.old.items slot || is_listed slots.now slot) }
    ensures count { length marks.new.items ≡ length marks.old.items }
{
    for slot in slots {
        mark_one(marks, *slot);
    }
}

// Sets the mark of one slot.
fn mark_one(marks: &mut Vec<bool>, slot: Slot)
    ensures marks { (other : ℕ) → other < length marks.old.items → is_flagged marks.new.items other ≡ (is_flagged marks.old.items other || slot == other) }
    ensures count { length marks.new.items ≡ length marks.old.items }
{
    let place = slot.0 as usize;
    if place < marks.len() {
        marks[place] = true;
    }
}

/// The first of the slots that is marked.
pub(crate) fn first_marked(marks: &[bool], slots: &[Slot]) -> Option<Slot>
    ensures { result ≡ find (is_flagged marks.now) slots.now }
{
    for slot in slots {
        if is_marked(marks, *slot) {
            return Some(*slot);
        }
    }
    None
}

/// Whether the slot is marked.
pub(crate) fn is_marked(marks: &[bool], slot: Slot) -> bool
    ensures { result ≡ is_flagged marks.now slot }
{
    match marks.get(slot.0 as usize) {
        None => false,
        Some(mark) => *mark,
    }
}
