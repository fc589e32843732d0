//! What follows a frame that is retried.

ghost use Rattle.std.specs.Prelude.{◌≡◌, IfOk};
ghost use Rattle.farm_types.specs.Kept.{KeepsRows};
ghost use Rattle.farm_depends.specs.Retrying.{Retries, has_frame, reopened_at, shut_at};

use crate::completing::is_done_in;
use crate::follow::Follow;
use depend_graph::Marks;
use farm_books::Books;
use farm_places::find_frame;
use farm_types::{FarmFault, FramePlace, Items, Slot};
use std::alloc::{AllocError, Global};

/// What follows the retry of the frame that is named: it isn't done any more where it was, and is blocked where it waits in groups that aren't met.
pub(crate) fn follow_retried(
    alloc: Global,
    books: &Books,
    place: &FramePlace,
) -> Result<Follow, FarmFault>
    requires { KeepsRows books.now.farm }
    ensures { Retries books.now place.now result }
{
    let slot = find_frame(alloc, books, place)?;
    let blocked = shut_at(alloc, books, slot)?;
    Ok(Follow {
        depends: Items::new(alloc),
        spares: Items::new(alloc),
        dropped: None,
        done: Items::new(alloc),
        marks: Marks::none(alloc),
        reopened: reopened_at(books, slot),
        opened: Items::new(alloc),
        blocked,
        raises: false,
        count: 0,
    })
}

// The slot, where its frame is done.
fn reopened_at(books: &Books, slot: Slot) -> Option<Slot>
    ensures { result ≡ reopened_at books.now.farm.slots slot }
{
    if is_done_in(books, slot) {
        return Some(slot);
    }
    None
}

// The slot alone, where it has a frame that waits in groups that aren't met.
fn shut_at(alloc: Global, books: &Books, slot: Slot) -> Result<Items<Slot>, AllocError>
    ensures { IfOk result (λ shut. shut ≡ shut_at books.now.farm.slots books.now.graph.depends slot) }
{
    let mut shut = Items::new(alloc);
    if has_frame(books, slot) && books.depends().unmet(slot) > 0 {
        shut.push(slot)?;
    }
    Ok(shut)
}

// Whether the slot has a frame.
fn has_frame(books: &Books, slot: Slot) -> bool
    ensures { result ≡ has_frame books.now.farm.slots slot }
{
    match books.slot(slot) {
        None => false,
        Some(row) => row.frame.is_some(),
    }
}
