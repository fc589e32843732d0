//! An entry on the words.

ghost use Rattle.std.specs.Prelude.{◌≡◌, IsOk, MatchResult, OnOk};
ghost use Rattle.booking_rule.specs.Kept.{farm_in};
ghost use Rattle.booking_rule.specs.declared.view.View.{View};
ghost use Rattle.booking_table.specs.Seats.{view, IsSeatOf, IsSameSeat};
ghost use Rattle.recording_turns.specs.Resting.{IsAtRest, split_in};
ghost use Rattle.booking_recorder.specs.Views.{Entered, Enters, HadRoom, HasRoom, IsHeldOn, IsReadyFor, ResizesIn, ResizesSome, Stays};

use crate::refusal::RecordFault;
use booking_table::{Seat, Table};
use farm_core::Farm;
use farm_stands::Turn;
use farm_types::{Cores, Entry, HostNo, Kb};
use frame_words::HostWord;
use recording_table::record_entry;
use recording_turns::{carry_out, give_size, take_size};

// Records the entry in the journal's word, and changes the words to what the farm says after it.
fn enter(
    table: &Table,
    seat: &mut Seat,
    farm: &Farm,
    entry: &Entry,
    turns: &[Turn],
    resized: &Option<HostNo>,
    room: HostWord,
)
    requires table { IsSeatOf table.now seat.old }
    requires ready { IsReadyFor (view seat.old) entry.now farm.now turns.now resized.now }
    ensures same { IsSameSeat seat.old seat.new }
    ensures rests { IsAtRest (view seat.new) }
    ensures entered { (v : View) → IsAtRest v → HasRoom v resized.now room (view seat.old) → Entered v entry.now (view seat.new) }
{
    let _ = room;
    record_entry(table, seat, entry);
    carry_out(table, seat, farm, turns, *resized);
}

/// Takes all that is free of the host that gets another size, if any does; or tells what was found to be free.
pub(crate) fn take_room(
    table: &Table,
    seat: &mut Seat,
    farm: &Farm,
    resized: &Option<HostNo>,
) -> Result<HostWord, HostWord>
    requires table { IsSeatOf table.now seat.old }
    requires rests { IsAtRest (view seat.old) }
    requires farm { farm.now ≡ farm_in (view seat.old) }
    requires resizes { ResizesIn farm.now resized.now }
    ensures same { IsSameSeat seat.old seat.new }
    ensures answer { MatchResult result
        (λ room. HasRoom (view seat.old) resized.now room (view seat.new))
        (λ found. IsHeldOn (view seat.old) farm.now resized.now found (view seat.new)) }
    ensures alone { split_in (view seat.old).desk ≡ 0 → IsOk result }
{
    match resized {
        None => Ok(HostWord {
            cores: Cores(0),
            memory: Kb(0),
        }),
        Some(host) => take_size(table, seat, farm, *host),
    }
}

// Gives it back.
fn give_room(table: &Table, seat: &mut Seat, resized: &Option<HostNo>, room: HostWord)
    requires table { IsSeatOf table.now seat.old }
    requires resizes { ResizesSome resized.now }
    requires room { HadRoom resized.now room (view seat.old) }
    ensures same { IsSameSeat seat.old seat.new }
    ensures rests { IsAtRest (view seat.new) }
    ensures stays { (v : View) → IsAtRest v → HasRoom v resized.now room (view seat.old) → Stays v (view seat.new) }
{
    match resized {
        None => {}
        Some(host) => give_size(table, seat, *host, room),
    }
}

/// Records the entry on the words, where it was recorded in the farm, and else gives the room back.
pub(crate) fn carry_on(
    table: &Table,
    seat: &mut Seat,
    farm: &Farm,
    entry: &Entry,
    turns: &[Turn],
    resized: &Option<HostNo>,
    room: HostWord,
    recorded: &Result<(), RecordFault>,
)
    requires table { IsSeatOf table.now seat.old }
    requires resizes { ResizesSome resized.now }
    requires room { HadRoom resized.now room (view seat.old) }
    requires ready { OnOk recorded.now (IsReadyFor (view seat.old) entry.now farm.now turns.now resized.now) }
    ensures same { IsSameSeat seat.old seat.new }
    ensures rests { IsAtRest (view seat.new) }
    ensures entered { (v : View) → IsAtRest v → HasRoom v resized.now room (view seat.old) → Enters v entry.now recorded.now (view seat.new) }
{
    match recorded {
        Ok(()) => enter(table, seat, farm, entry, turns, resized, room),
        Err(_) => give_room(table, seat, resized, room),
    }
}
