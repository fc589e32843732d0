//! Entries of the journal, and the farm from which it starts.

ghost use Rattle.std.specs.Prelude.{◌≡◌, length};
ghost use Rattle.recording_core.specs.Records.{booked, closed, entered, opened};
ghost use Rattle.recording_core.specs.Records.RecorderKind.{books, closes, opens, records};
ghost use Rattle.booking_table.specs.Holds.{claim_of};
ghost use Rattle.booking_table.specs.Seats.{view, IsSeatOf, IsSameSeat};
ghost use Rattle.recording_table.specs.Steps.{MayTake};

use crate::plays::Stepping;
use crate::steps::{add_as, load_as};
use booking_table::{Claim, Seat, Table};
use farm_types::Entry;
use std::marker::Brand;

/// Records an entry that is no booking, of which no word was changed yet. It tells the entry's place in the journal.
pub fn record_entry(table: &Table, seat: &mut Seat, entry: &Entry) -> u64
    requires table { IsSeatOf table.now seat.old }
    requires may { MayTake (view seat.old) (records entry.now) }
    ensures same { IsSameSeat seat.old seat.new }
    ensures recorded { view seat.new ≡ entered (view seat.old) entry.now result }
    ensures place { result ≡ length (view seat.old).journal }
{
    record_as::<Brand>(table, seat, entry)
}

fn record_as<E: Stepping>(table: &Table, seat: &mut Seat, entry: &Entry) -> u64
    requires table { IsSeatOf table.now seat.old }
    requires kind { E.kind ≡ records entry.now }
    requires may { MayTake (view seat.old) (records entry.now) }
    ensures same { IsSameSeat seat.old seat.new }
    ensures recorded { view seat.new ≡ entered (view seat.old) entry.now result }
    ensures place { result ≡ length (view seat.old).journal }
{
    let _ = entry;
    add_as::<E>(table, seat, 0, 1)
}

/// Records the booking of a claim whose word runs ahead: its word shows the farm already, and the claim is used up. It tells
/// the entry's place in the journal.
pub fn record_booking(table: &Table, seat: &mut Seat, claim: Claim, entry: &Entry) -> u64
    requires table { IsSeatOf table.now seat.old }
    requires may { MayTake (view seat.old) (books (claim_of claim) entry.now) }
    ensures same { IsSameSeat seat.old seat.new }
    ensures recorded { view seat.new ≡ booked (view seat.old) (claim_of claim) entry.now result }
    ensures place { result ≡ length (view seat.old).journal }
{
    let place = book_as::<Brand>(table, seat, &claim, entry);
    let (_, _, hold) = claim.into_parts();
    let (burst, _, _) = hold.into_parts();
    let _ = burst.into_parts();
    place
}

fn book_as<E: Stepping>(table: &Table, seat: &mut Seat, claim: &Claim, entry: &Entry) -> u64
    requires table { IsSeatOf table.now seat.old }
    requires kind { E.kind ≡ books (claim_of claim.now) entry.now }
    requires may { MayTake (view seat.old) (books (claim_of claim.now) entry.now) }
    ensures same { IsSameSeat seat.old seat.new }
    ensures recorded { view seat.new ≡ booked (view seat.old) (claim_of claim.now) entry.now result }
    ensures place { result ≡ length (view seat.old).journal }
{
    let _ = claim;
    let _ = entry;
    add_as::<E>(table, seat, 0, 1)
}

/// The farm from which a journal starts. A call picks it.
pub trait Opens {
    ghost use Rattle.farm_types.specs.Farm.{Farm};

    ghost farm: { Farm };
}

impl Opens for Brand {
    ghost use Rattle.farm_types.specs.Farm.{empty_farm};

    ghost farm = { empty_farm };
}

/// Begins to place another farm, of which no word was changed yet: the journal, which is empty, starts from it.
pub fn open_farm<E: Opens>(table: &Table, seat: &mut Seat)
    requires table { IsSeatOf table.now seat.old }
    requires may { MayTake (view seat.old) (opens E.farm) }
    ensures same { IsSameSeat seat.old seat.new }
    ensures opened { view seat.new ≡ opened (view seat.old) E.farm 0 }
{
    load_as::<Brand>(table, seat, 0);
}

/// Ends the placing, once nothing is left to do. From then on seats may be split off, and entries recorded.
pub fn close_opening(table: &Table, seat: &mut Seat)
    requires table { IsSeatOf table.now seat.old }
    requires may { MayTake (view seat.old) closes }
    ensures same { IsSameSeat seat.old seat.new }
    ensures closed { view seat.new ≡ closed (view seat.old) 0 }
{
    load_as::<Brand>(table, seat, 0);
}
