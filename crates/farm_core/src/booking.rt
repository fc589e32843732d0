//! Bookings: decided once, with the rows of the store that they change.

ghost use Rattle.std.specs.Prelude.{◌≡◌, ◌&&◌, ◌==◌, is_ok, IfOk};
ghost use Rattle.std.specs.Result.{result_err};
ghost use Rattle.farm_types.specs.Booking.{may_record};
ghost use Rattle.farm_types.specs.Step.{after};
ghost use Rattle.booking_reasons.specs.WhyNot.{why_not_record};
ghost use Rattle.farm_rows.specs.Changes.{NamesExactly};
ghost use Rattle.farm_rows.specs.Rows.{head_row};
ghost use Rattle.farm_books.specs.Bookings.{IsAsked, IsBooking, entry_of};
ghost use Rattle.farm_core.specs.Bookings.{IsBookingOf, rows_in};

use crate::farm::Farm;
use booking_reasons::NotBooked;
use farm_books::Books;
use farm_rows::{FarmRow, HeadRow, ROW_FORMAT, RowChange};
use farm_types::{HostNo, Slot};

/// A booking that was decided: the slot's row that it leaves, and the rows of the store that change. It takes no memory.
#[derive(Debug, Drop)]
pub struct Booking {
    pub(crate) booked: farm_books::Booking,
    pub(crate) rows: BookingRows,
}

// The rows of the store that a booking changes: the slot's, and the farm's own where that is another one then.
#[derive(Debug, Drop)]
pub(crate) enum BookingRows {
    Slot([RowChange; 1]),
    Both([RowChange; 2]),
}

impl Booking {
    /// The rows of the store that change: exactly those in which the farm and the one with the booking differ, each as it will be. They were found as
    /// the booking was decided.
    pub fn batch(&self) -> &[RowChange]
        ensures { result.now ≡ rows_in self.now.rows }
    {
        match &self.rows {
            BookingRows::Slot(rows) => rows,
            BookingRows::Both(rows) => rows,
        }
    }
}

impl Farm {
    /// The booking of the slot's frame on the host that is asked for at the moment (seconds), or the first reason why it may not be recorded. Tags are
    /// passed over. It changes nothing, and takes no memory.
    pub fn recordable(&self, slot: Slot, host: HostNo, moment: u64) -> Result<Booking, NotBooked>
        ensures may { is_ok result ≡ may_record self.now slot host }
        ensures why { result_err result ≡ why_not_record self.now slot host }
        ensures asked { IfOk result (λ b. IsAsked slot host moment b.booked) }
        ensures booking { IfOk result (IsBookingOf self.now) }
    {
        let booked = match self.books.recordable(slot, host, moment) {
            Ok(booked) => booked,
            Err(why) => return Err(why),
        };
        let rows = rows_of_booking(&self.books, &booked);
        Ok(Booking { booked, rows })
    }

    /// Puts in a booking that was decided over this farm. It takes no memory.
    pub fn book(&mut self, booking: &Booking)
        requires { IsBookingOf self.old booking.now }
        ensures { self.new ≡ after self.old (entry_of booking.now.booked) }
    {
        self.books.kept();
        self.books.book(&booking.booked)
    }
}

// The rows that the booking changes: the slot's, and the farm's own, where the farm's moment moves on or no entry has made the farm.
fn rows_of_booking(books: &Books, booked: &farm_books::Booking) -> BookingRows
    requires { IsBooking books.now.farm booked.now }
    ensures { NamesExactly books.now.farm (after books.now.farm (entry_of booked.now)) (rows_in result) }
{
    let now = books.later_of(booked.moment);
    let slot = RowChange::of_slot(booked.slot, &booked.row);
    if is_head_at(books, now) {
        return BookingRows::Slot([slot]);
    }
    BookingRows::Both([slot, RowChange::Put(FarmRow::Head(head_at(books, now)))])
}

// Whether the farm's own row is there, and of that moment.
fn is_head_at(books: &Books, moment: u64) -> bool
    ensures { result ≡ (books.now.farm.recorded && books.now.farm.moment == moment) }
{
    books.is_recorded() && books.moment() == moment
}

// The farm's own row at another moment.
fn head_at(books: &Books, moment: u64) -> HeadRow
    ensures { result ≡ record (head_row books.now.farm) { moment = moment } }
{
    HeadRow {
        format: ROW_FORMAT,
        moment,
        jobs: books.jobs().next_number(),
        finishes: books.jobs().next_finish(),
        depends: books.depends().next_number(),
    }
}
