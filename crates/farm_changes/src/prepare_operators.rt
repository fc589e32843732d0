//! Prepares what operators do to frames: they are killed, eaten or retried.

ghost use Rattle.std.specs.Prelude.{◌≡◌, ◌≤◌, true, Some, IfOk};
ghost use Rattle.farm_types.specs.Kept.{KeepsRows};
ghost use Rattle.farm_types.specs.Operators.{count_at, retried_row, stopped_row};
ghost use Rattle.farm_types.specs.Step.{lists_of};
ghost use Rattle.farm_types.specs.declared.entry.Act.TheVariants as act;
ghost use Rattle.job_book.specs.Book.{has_frame};
ghost use Rattle.farm_changes.specs.Change.{Prepares};
ghost use Rattle.farm_changes.specs.ChangedRow.{ChangesRow, SetsRow};

use crate::change::{Change, More};
use crate::prepare_slots::one_slot;
use crate::preparing::change_of;
use farm_books::Books;
use farm_draft::{SlotChange, retried_row, stopped_row};
use farm_places::{check_eat, check_kill, check_retry, find_frame};
use farm_types::{Answer, FarmFault, FramePlace, FrameState, Slot, SlotRow};
use std::alloc::{AllocError, Global};

/// Prepares that a frame is killed.
pub(crate) fn prepare_kill_frame(
    alloc: Global,
    books: &Books,
    moment: u64,
    place: &FramePlace,
) -> Result<Change, FarmFault>
    requires kept { KeepsRows books.now.farm }
    requires ahead { books.now.farm.moment ≤ moment }
    ensures { Prepares books.now.farm (record { moment = moment; act = act.KillFrame place.now }) result }
{
    let slot = find_frame(alloc, books, place)?;
    check_kill(books, slot)?;
    Ok(stop(alloc, books, moment, slot, FrameState::Dead)?)
}

/// Prepares that a frame is eaten.
pub(crate) fn prepare_eat(
    alloc: Global,
    books: &Books,
    moment: u64,
    place: &FramePlace,
) -> Result<Change, FarmFault>
    requires kept { KeepsRows books.now.farm }
    requires ahead { books.now.farm.moment ≤ moment }
    ensures { Prepares books.now.farm (record { moment = moment; act = act.EatFrame place.now }) result }
{
    let slot = find_frame(alloc, books, place)?;
    check_eat(books, slot)?;
    Ok(stop(alloc, books, moment, slot, FrameState::Eaten)?)
}

/// Prepares that a frame is retried.
pub(crate) fn prepare_retry(
    alloc: Global,
    books: &Books,
    moment: u64,
    place: &FramePlace,
) -> Result<Change, FarmFault>
    requires kept { KeepsRows books.now.farm }
    requires ahead { books.now.farm.moment ≤ moment }
    ensures { Prepares books.now.farm (record { moment = moment; act = act.RetryFrame place.now }) result }
{
    let slot = find_frame(alloc, books, place)?;
    check_retry(alloc, books, place, slot)?;
    Ok(retry(alloc, books, moment, slot)?)
}

// The change in which the slot's attempt ends, and its frame is put into that state.
fn stop(
    alloc: Global,
    books: &Books,
    moment: u64,
    slot: Slot,
    state: FrameState,
) -> Result<Change, AllocError>
    requires { has_frame (lists_of books.now.farm) slot ≡ true }
    ensures { IfOk result (ChangesRow books.now.farm moment slot (stopped_row state)) }
{
    let Some(row) = books.slot(slot) else {
        unreachable!()
    };
    let stopped = stopped_row(&row, state);
    row_change(
        alloc,
        moment,
        SlotChange {
            slot,
            was: row,
            row: stopped,
        },
    )
}

// The change in which the slot's attempt ends, and its frame waits as at first.
fn retry(alloc: Global, books: &Books, moment: u64, slot: Slot) -> Result<Change, AllocError>
    requires { has_frame (lists_of books.now.farm) slot ≡ true }
    ensures { IfOk result (ChangesRow books.now.farm moment slot retried_row) }
{
    let Some(row) = books.slot(slot) else {
        unreachable!()
    };
    let retried = retried_row(&row);
    row_change(
        alloc,
        moment,
        SlotChange {
            slot,
            was: row,
            row: retried,
        },
    )
}

// The change in which the slot gets another row, whose attempt ends.
fn row_change(alloc: Global, moment: u64, change: SlotChange) -> Result<Change, AllocError>
    ensures { IfOk result (SetsRow moment change.slot (count_at (Some change.was)) change.was change.row) }
{
    let ended = count_in(&change.was);
    let rows = one_slot(alloc, change)?;
    Ok(change_of(moment, Answer::Ended { ended }, rows, More::Nothing))
}

// How many attempts the row has.
fn count_in(row: &SlotRow) -> u32
    ensures { result ≡ count_at (Some row.now) }
{
    if row.proc.is_some() { 1 } else { 0 }
}
