//! Frames that open, and frames that are blocked.

ghost use Rattle.std.specs.Prelude.{◌≡◌, None, All};
ghost use Rattle.farm_types.specs.Farm.{changed_at};
ghost use Rattle.farm_types.specs.Settle.{blocked_row, in_state};
ghost use Rattle.farm_types.specs.declared.states.FrameState.TheVariants as frame_state;
ghost use Rattle.farm_books.specs.Books.{with_farm};
ghost use Rattle.farm_depends.specs.Follow.{IsMovable, change_of, put_blocked, put_opened};

use farm_books::Books;
use farm_types::{Frame, FrameState, Slot, SlotRow, Version};

/// The frames in the slots wait to be booked. None has an attempt.
pub(crate) fn open_all(books: &mut Books, slots: &[Slot])
    requires { All (IsMovable books.old.farm.slots) slots.now }
    ensures { books.new ≡ with_farm books.old (record books.old.farm { slots = put_opened slots.now books.old.farm.slots }) }
{
    for slot in slots {
        open(books, *slot);
    }
}

/// The frames in the slots are blocked, and where `raises` says so they leave their version. None has an attempt.
pub(crate) fn block_all(books: &mut Books, slots: &[Slot], raises: bool)
    requires { All (IsMovable books.old.farm.slots) slots.now }
    ensures { books.new ≡ with_farm books.old (record books.old.farm { slots = put_blocked raises slots.now books.old.farm.slots }) }
{
    for slot in slots {
        block(books, *slot, raises);
    }
}

// The frame in the slot waits to be booked.
fn open(books: &mut Books, slot: Slot)
    requires { IsMovable books.old.farm.slots slot }
    ensures { books.new ≡ with_farm books.old (record books.old.farm { slots = changed_at books.old.farm.slots slot (in_state frame_state.Waiting) }) }
{
    let Some(row) = books.slot(slot) else {
        unreachable!()
    };
    books.install_slot(slot, &in_state(row, FrameState::Waiting));
}

// The frame in the slot is blocked, at the same version or the next.
fn block(books: &mut Books, slot: Slot, raises: bool)
    requires { IsMovable books.old.farm.slots slot }
    ensures { books.new ≡ with_farm books.old (record books.old.farm { slots = changed_at books.old.farm.slots slot (blocked_row (change_of raises)) }) }
{
    let Some(row) = books.slot(slot) else {
        unreachable!()
    };
    books.install_slot(slot, &blocked_row(row, raises));
}

// The row with its frame in that state.
fn in_state(row: SlotRow, state: FrameState) -> SlotRow
    ensures { result ≡ in_state state row }
{
    let SlotRow {
        version,
        frame,
        proc,
    } = row;
    SlotRow {
        version,
        frame: frame.map(|frame| Frame { state, ..frame }),
        proc,
    }
}

// The row with its frame blocked.
fn blocked_row(row: SlotRow, raises: bool) -> SlotRow
    ensures { result ≡ blocked_row (change_of raises) row }
{
    let version = changed(row.version, raises);
    let SlotRow {
        version: _,
        frame,
        proc,
    } = in_state(row, FrameState::Depend);
    SlotRow {
        version,
        frame,
        proc,
    }
}

/// The version, or one more where it is raised, up to the last.
pub(crate) fn changed(version: Version, raises: bool) -> Version
    ensures { result ≡ change_of raises version }
{
    if raises { version.next() } else { version }
}
