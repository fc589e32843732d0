//! What follows completions, and a depend that goes.

ghost use Rattle.std.specs.Prelude.{◌≡◌, ◌≤◌, decimal, length, All, IfOk};
ghost use Rattle.farm_types.specs.Depends.{is_done};
ghost use Rattle.farm_types.specs.declared.entry.Act.TheVariants as act;
ghost use Rattle.farm_types.specs.declared.limits.TheConstants.{SLOT_LIMIT};
ghost use Rattle.farm_types.specs.declared.refusal.Refusal.TheVariants.{Unknown};
ghost use Rattle.farm_types.specs.Faults.{IsRefusal};
ghost use Rattle.farm_books.specs.Books.{IsWhole};
ghost use Rattle.farm_changes.specs.Change.{Makes, after_change};
ghost use Rattle.farm_draft.specs.Rows.{Stood};
ghost use Rattle.farm_depends.specs.Completing.{IsCompleting, blocked_among, is_blocked_in, left_blocked, newly_done, unmarked_among};
ghost use Rattle.farm_depends.specs.Follow.{HasMarks, PreparesFollow};

use crate::follow::Follow;
use crate::marks::{is_marked, mark, no_marks};
use crate::rows::completed::{is_blocked, is_done, newly_done, newly_eaten};
use depend_graph::Marks;
use farm_books::Books;
use farm_changes::Change;
use farm_draft::SlotChange;
use farm_types::{DependNo, Entry, FarmFault, Items, Refusal, Slot, Text};
use std::alloc::{AllocError, Global};

/// What follows an act that may complete frames, for which `change` was prepared: its completions meet groups, and frames open.
pub(crate) fn follow_completed(
    alloc: Global,
    books: &Books,
    entry: &Entry,
    change: &Change,
) -> Result<Follow, FarmFault>
    requires whole { IsWhole books.now }
    requires made { Makes books.now.farm entry.now change.now }
    requires completing { IsCompleting entry.now.act }
    ensures prepares { PreparesFollow books.now.farm (after_change books.now.farm change.now) entry.now.act result }
    ensures marks { IfOk result (HasMarks books.now.graph) }
{
    books.kept();
    let depends = books.depends();
    let rows = change.slot_rows();
    let done = newly_done(alloc, rows)?;
    let completion = depends.would_complete(alloc, done.as_slice())?;
    let opened = left_blocked(alloc, books, rows, completion.opened.as_slice())?;
    Ok(Follow {
        depends: Items::new(alloc),
        spares: Items::new(alloc),
        dropped: None,
        done,
        marks: completion.marks,
        reopened: None,
        opened,
        blocked: Items::new(alloc),
        raises: false,
        count: 0,
    })
}

/// What follows a depend that is dropped: frames open.
pub(crate) fn follow_drop(
    alloc: Global,
    books: &Books,
    depend: DependNo,
) -> Result<Follow, FarmFault>
    requires whole { IsWhole books.now }
    ensures prepares { PreparesFollow books.now.farm books.now.farm (act.DropDepend depend) result }
    ensures marks { IfOk result (HasMarks books.now.graph) }
{
    let Some(row) = books.depend(depend) else {
        return Err(unknown(alloc, depend));
    };
    if row.met_all {
        return Err(FarmFault::Refused {
            why: Refusal::Satisfied,
        });
    }
    books.kept();
    let opening = books.depends().would_open_without(alloc, depend)?;
    let opened = blocked_among(alloc, books, opening.as_slice())?;
    let count = opened.len() as u32;
    Ok(Follow {
        depends: Items::new(alloc),
        spares: Items::new(alloc),
        dropped: Some(depend),
        done: Items::new(alloc),
        marks: Marks::none(alloc),
        reopened: None,
        opened,
        blocked: Items::new(alloc),
        raises: false,
        count,
    })
}

// No depend of that number is there.
fn unknown(alloc: Global, depend: DependNo) -> FarmFault
    ensures { IsRefusal (Unknown (decimal depend)) result }
{
    match depend.0.to_string(alloc) {
        Ok(name) => FarmFault::Refused {
            why: Refusal::Unknown {
                name: Text::from_string(name),
            },
        },
        Err(AllocError) => FarmFault::NoMemory,
    }
}

// The slots among these whose frames are blocked.
fn blocked_among(alloc: Global, books: &Books, slots: &[Slot]) -> Result<Items<Slot>, AllocError>
    ensures { IfOk result (λ blocked. blocked ≡ blocked_among books.now.farm.slots slots.now) }
{
    let mut blocked = Items::new(alloc);
    for slot in slots {
        if is_blocked_in(books, *slot) {
            blocked.push(*slot)?;
        }
    }
    Ok(blocked)
}

// The slots among these whose frames are blocked, but for those that the changes complete. Where they complete blocked frames, as operators eat them, all
// slots of the farm are marked once.
fn left_blocked(
    alloc: Global,
    books: &Books,
    rows: &[SlotChange],
    slots: &[Slot],
) -> Result<Items<Slot>, AllocError>
    requires few { length books.now.farm.slots ≤ SLOT_LIMIT }
    requires stood { All (Stood books.now.farm.slots) rows.now }
    ensures { IfOk result (λ left. left ≡ left_blocked books.now.farm.slots (newly_done rows.now) slots.now) }
{
    let blocked = blocked_among(alloc, books, slots)?;
    let eaten = newly_eaten(alloc, rows)?;
    if eaten.is_empty() {
        return Ok(blocked);
    }
    let mut marks = no_marks(alloc)?;
    mark(&mut marks, eaten.as_slice());
    let left = unmarked_among(alloc, marks.as_slice(), blocked.as_slice())?;
    Ok(left)
}

// The slots among these that have no mark.
fn unmarked_among(alloc: Global, marks: &[bool], slots: &[Slot]) -> Result<Items<Slot>, AllocError>
    ensures { IfOk result (λ unmarked. unmarked ≡ unmarked_among marks.now slots.now) }
{
    let mut unmarked = Items::new(alloc);
    for slot in slots {
        if !is_marked(marks, *slot) {
            unmarked.push(*slot)?;
        }
    }
    Ok(unmarked)
}

/// Whether the frame in the slot is done.
pub(crate) fn is_done_in(books: &Books, slot: Slot) -> bool
    ensures { result ≡ is_done books.now.farm.slots slot }
{
    match books.slot(slot) {
        None => false,
        Some(row) => is_done(&row),
    }
}

// Whether the frame in the slot is blocked.
fn is_blocked_in(books: &Books, slot: Slot) -> bool
    ensures { result ≡ is_blocked_in books.now.farm.slots slot }
{
    match books.slot(slot) {
        None => false,
        Some(row) => is_blocked(&row),
    }
}
