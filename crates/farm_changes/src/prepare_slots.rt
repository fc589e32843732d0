//! Prepares a booking.

ghost use Rattle.std.specs.Prelude.{◌≡◌, ◌≤◌, ◌∷◌, [], true, IfOk};
ghost use Rattle.farm_types.specs.Booking.{may_record};
ghost use Rattle.farm_types.specs.declared.entry.Act.TheVariants as act;
ghost use Rattle.farm_books.specs.Books.{IsWhole};
ghost use Rattle.farm_changes.specs.Change.{Prepares};

use crate::change::{Change, More};
use crate::preparing::change_of;
use farm_books::Books;
use farm_draft::{Rows, SlotChange};
use farm_types::{Answer, FarmFault, HostNo, Slot};
use std::alloc::{AllocError, Global};

/// Prepares a booking that may be recorded.
pub(crate) fn prepare_book(
    alloc: Global,
    books: &Books,
    moment: u64,
    slot: Slot,
    host: HostNo,
) -> Result<Change, FarmFault>
    requires whole { IsWhole books.now }
    requires ahead { books.now.farm.moment ≤ moment }
    requires allowed { may_record books.now.farm slot host ≡ true }
    ensures { Prepares books.now.farm (record { moment = moment; act = act.Book slot host }) result }
{
    let Some(row) = books.booked_at(slot, host, moment) else {
        unreachable!()
    };
    let Some(was) = books.slot(slot) else {
        unreachable!()
    };
    let rows = one_slot(alloc, SlotChange { slot, was, row })?;
    Ok(change_of(moment, Answer::Booked, rows, More::Nothing))
}

/// The change of one slot.
pub(crate) fn one_slot(alloc: Global, change: SlotChange) -> Result<Rows, AllocError>
    ensures hosts { IfOk result (λ rows. rows.hosts.items ≡ []) }
    ensures slots { IfOk result (λ rows. rows.slots.items ≡ change ∷ []) }
{
    // In its parts, since the check of the push asks for their types.
    let SlotChange { slot, was, row } = change;
    let mut rows = Rows::none(alloc);
    rows.slots.push(SlotChange { slot, was, row })?;
    Ok(rows)
}
