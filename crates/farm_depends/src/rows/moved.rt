//! The rows of frames that open or are blocked.

ghost use Rattle.std.specs.Prelude.{◌≡◌, ℕ, nat_eq, All, IfOk, List, OnOk, Some, true, option_map, slice_get};
ghost use Rattle.indexmap.specs.IndexMap.{get};
ghost use Rattle.farm_types.specs.Farm.{Farm};
ghost use Rattle.farm_types.specs.declared.slot_row.SlotRow.{SlotRow};
ghost use Rattle.farm_rows.specs.declared.frame_row.FrameRow.{FrameRow};
ghost use Rattle.farm_rows.specs.Changes.{MakesRows};
ghost use Rattle.farm_rows.specs.Rows.{frame_row};
ghost use Rattle.farm_depends.specs.Follow.{IsMovable, put_blocked, put_opened, slots_after};
ghost use Rattle.farm_depends.specs.FollowRows.{IsActed, IsPut, Notes, Stands, blocked_row, frame_or, frame_put, noted, opened_row, stored_in};

use crate::follow::Follow;
use crate::moving::changed;
use farm_books::Books;
use farm_rows::{FarmRow, FrameRow, RowChange, StoredFrame, StoredState};
use farm_types::Slot;
use indexmap::IndexMap;
use std::alloc::{AllocError, Global};

/// The rows of the frames that open, then of those that are blocked, where the changes `acted` led to the farm before.
pub(crate) fn moved_rows(
    alloc: Global,
    books: &Books,
    acted: &[RowChange],
    follow: &Follow,
) -> Result<Vec<RowChange>, AllocError>
    ensures { IfOk result (λ rows. (f : Farm) → IsActed books.now.farm acted.now follow.now f
        → MakesRows f (record f { slots = slots_after f.slots follow.now }) rows.items) }
{
    let mut rows = Vec::new(alloc);
    if moves_none(follow) {
        return Ok(rows);
    }
    let mut frames = frames_in(alloc, acted)?;
    open_rows(books, &mut frames, &mut rows, follow.opened.as_slice())?;
    block_rows(
        books,
        &mut frames,
        &mut rows,
        follow.blocked.as_slice(),
        follow.raises,
    )?;
    Ok(rows)
}

// Whether no frame opens, and none is blocked.
fn moves_none(follow: &Follow) -> bool
    ensures { result ≡ true → (slots : List SlotRow) → slots_after slots follow.now ≡ slots }
{
    follow.opened.is_empty() && follow.blocked.is_empty()
}

// The rows of frames that changes put in, the last one of each slot.
fn frames_in(alloc: Global, changes: &[RowChange]) -> Result<IndexMap<u32, FrameRow>, AllocError>
    ensures { IfOk result (λ frames. Notes changes.now (get nat_eq frames)) }
{
    let mut frames = IndexMap::new(alloc);
    for change in changes {
        note_change(&mut frames, change)?;
    }
    Ok(frames)
}

// The row of the frame that a change puts in is noted.
fn note_change(frames: &mut IndexMap<u32, FrameRow>, change: &RowChange) -> Result<(), AllocError>
    ensures { OnOk result ((slot : ℕ) → get nat_eq frames.new slot ≡ noted (frame_put change.now) slot (get nat_eq frames.old slot)) }
{
    match frame_put(change) {
        None => Ok(()),
        Some(row) => note(frames, &row),
    }
}

// The row of the frame that a change puts in.
fn frame_put(change: &RowChange) -> Option<FrameRow>
    ensures { result ≡ frame_put change.now }
{
    match change {
        RowChange::Put(FarmRow::Frame(row)) => Some(*row),
        _ => None,
    }
}

// That is the row of its slot from now on.
fn note(frames: &mut IndexMap<u32, FrameRow>, row: &FrameRow) -> Result<(), AllocError>
    ensures { OnOk result ((slot : ℕ) → get nat_eq frames.new slot ≡ noted (Some row.now) slot (get nat_eq frames.old slot)) }
{
    // In its parts, since the check of the insertion asks for their types.
    let FrameRow {
        slot,
        version,
        frame,
    } = *row;
    frames.insert(
        slot.0,
        FrameRow {
            slot,
            version,
            frame,
        },
    )?;
    Ok(())
}

// What is noted of the slot, or else its own row in the books.
fn frame_at(frames: &IndexMap<u32, FrameRow>, books: &Books, slot: Slot) -> Option<FrameRow>
    ensures { result ≡ frame_or slot (slice_get books.now.farm.slots slot) (get nat_eq frames.now slot) }
{
    match noted_at(frames, slot.0) {
        Some(row) => Some(row),
        None => own_row(books, slot),
    }
}

// What is noted of the slot.
fn noted_at(frames: &IndexMap<u32, FrameRow>, slot: u32) -> Option<FrameRow>
    ensures { result ≡ get nat_eq frames.now slot }
{
    frames.get(&slot).copied()
}

// The slot's own row in the books.
fn own_row(books: &Books, slot: Slot) -> Option<FrameRow>
    ensures { result ≡ option_map (frame_row slot) (slice_get books.now.farm.slots slot) }
{
    match books.slot(slot) {
        None => None,
        Some(row) => Some(FrameRow::of_slot(slot, &row)),
    }
}

// The frames in the slots wait to be booked.
fn open_rows(
    books: &Books,
    frames: &mut IndexMap<u32, FrameRow>,
    rows: &mut Vec<RowChange>,
    slots: &[Slot],
) -> Result<(), AllocError>
    ensures { OnOk result ((g f : Farm) → Stands g books.now.farm.slots f rows.old.items (get nat_eq frames.old) → All (IsMovable f.slots) slots.now
        → Stands g books.now.farm.slots (record f { slots = put_opened slots.now f.slots }) rows.new.items (get nat_eq frames.new)) }
{
    for slot in slots {
        open_row(books, frames, rows, *slot)?;
    }
    Ok(())
}

// The frames in the slots are blocked, and where `raises` says so they leave their version.
fn block_rows(
    books: &Books,
    frames: &mut IndexMap<u32, FrameRow>,
    rows: &mut Vec<RowChange>,
    slots: &[Slot],
    raises: bool,
) -> Result<(), AllocError>
    ensures { OnOk result ((g f : Farm) → Stands g books.now.farm.slots f rows.old.items (get nat_eq frames.old) → All (IsMovable f.slots) slots.now
        → Stands g books.now.farm.slots (record f { slots = put_blocked raises slots.now f.slots }) rows.new.items (get nat_eq frames.new)) }
{
    for slot in slots {
        block_row(books, frames, rows, *slot, raises)?;
    }
    Ok(())
}

// The frame in the slot waits to be booked. A slot that isn't there is left out.
fn open_row(
    books: &Books,
    frames: &mut IndexMap<u32, FrameRow>,
    rows: &mut Vec<RowChange>,
    slot: Slot,
) -> Result<(), AllocError>
    ensures { OnOk result ((r : FrameRow) → frame_or slot (slice_get books.now.farm.slots slot) (get nat_eq frames.old slot) ≡ Some r
        → IsPut (opened_row r) rows.old.items rows.new.items (get nat_eq frames.old) (get nat_eq frames.new)) }
{
    match frame_at(frames, books, slot) {
        None => Ok(()),
        Some(row) => put_frame(frames, rows, &opened(row)),
    }
}

// The frame in the slot is blocked, at the same version or the next. A slot that isn't there is left out.
fn block_row(
    books: &Books,
    frames: &mut IndexMap<u32, FrameRow>,
    rows: &mut Vec<RowChange>,
    slot: Slot,
    raises: bool,
) -> Result<(), AllocError>
    ensures { OnOk result ((r : FrameRow) → frame_or slot (slice_get books.now.farm.slots slot) (get nat_eq frames.old slot) ≡ Some r
        → IsPut (blocked_row raises r) rows.old.items rows.new.items (get nat_eq frames.old) (get nat_eq frames.new)) }
{
    match frame_at(frames, books, slot) {
        None => Ok(()),
        Some(row) => put_frame(frames, rows, &blocked(row, raises)),
    }
}

// The row is put in, and noted.
fn put_frame(
    frames: &mut IndexMap<u32, FrameRow>,
    rows: &mut Vec<RowChange>,
    row: &FrameRow,
) -> Result<(), AllocError>
    ensures { OnOk result (IsPut row.now rows.old.items rows.new.items (get nat_eq frames.old) (get nat_eq frames.new)) }
{
    rows.push(RowChange::Put(FarmRow::Frame(*row)))?;
    note(frames, row)
}

// The row with its frame waiting.
fn opened(row: FrameRow) -> FrameRow
    ensures { result ≡ opened_row row }
{
    let FrameRow {
        slot,
        version,
        frame,
    } = row;
    FrameRow {
        slot,
        version,
        frame: stored_in(frame, StoredState::Waiting),
    }
}

// The row with its frame blocked.
fn blocked(row: FrameRow, raises: bool) -> FrameRow
    ensures { result ≡ blocked_row raises row }
{
    let FrameRow {
        slot,
        version,
        frame,
    } = row;
    FrameRow {
        slot,
        version: changed(version, raises),
        frame: stored_in(frame, StoredState::Depend),
    }
}

// The frame in that state.
fn stored_in(frame: Option<StoredFrame>, state: StoredState) -> Option<StoredFrame>
    ensures { result ≡ option_map (stored_in state) frame }
{
    match frame {
        None => None,
        Some(frame) => Some(StoredFrame { state, ..frame }),
    }
}
