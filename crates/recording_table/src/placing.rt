//! Words that are placed for the first time: each was 0.

ghost use Rattle.std.specs.Prelude.{◌≡◌, ◌<◌};
ghost use Rattle.frame_words.specs.Bits.{FitsFrame, FitsHost, frame_bits};
ghost use Rattle.recording_core.specs.Records.{turned_word, sized, placed_burst, placed_most};
ghost use Rattle.recording_core.specs.Records.RecorderKind.{places, places_size, places_burst, places_most};
ghost use Rattle.booking_table.specs.Seats.{view, IsSeatOf, IsSameSeat};
ghost use Rattle.recording_table.specs.Steps.{MayTake};

use crate::doing::Doing;
use crate::steps::{add, swap};
use booking_table::{Seat, Table};
use farm_types::{HostNo, LimitNo, Slot, SubNo};
use frame_words::{FrameWord, HostWord, LimitWord, SubWord};

// where the words stand
const FRAMES: usize = 1;

const HOSTS: usize = 131_073;

const SUBS: usize = 135_169;

const LIMITS: usize = 136_193;

/// Adds what is free of a host, which is its size less what its running frames use.
pub fn place_size(table: &Table, seat: &mut Seat, host: HostNo, free: HostWord)
    requires table { IsSeatOf table.now seat.old }
    requires within { (host < 4096) × FitsHost free }
    requires may { MayTake (view seat.old) (places_size host free.cores free.memory) }
    ensures same { IsSameSeat seat.old seat.new }
    ensures placed { view seat.new ≡ sized (view seat.old) host free.cores free.memory 0 }
{
    let HostWord { cores, memory } = free;
    let doing = Doing::PlacesSize {
        host,
        cores,
        memory,
    };
    add(table, seat, usize::from(host.0) + HOSTS, free.pack(), doing);
}

/// Adds a subscription's burst, and what running frames use of it.
pub fn place_burst(table: &Table, seat: &mut Seat, sub: SubNo, word: SubWord)
    requires table { IsSeatOf table.now seat.old }
    requires within { sub < 1024 }
    requires may { MayTake (view seat.old) (places_burst sub word.burst word.booked) }
    ensures same { IsSameSeat seat.old seat.new }
    ensures placed { view seat.new ≡ placed_burst (view seat.old) sub word.burst word.booked 0 }
{
    let SubWord { burst, booked } = word;
    let doing = Doing::PlacesBurst { sub, burst, booked };
    add(table, seat, usize::from(sub.0) + SUBS, word.pack(), doing);
}

/// Adds how many frames may run in a limit, and how many do.
pub fn place_most(table: &Table, seat: &mut Seat, limit: LimitNo, word: LimitWord)
    requires table { IsSeatOf table.now seat.old }
    requires within { limit < 255 }
    requires may { MayTake (view seat.old) (places_most limit word.most word.running) }
    ensures same { IsSameSeat seat.old seat.new }
    ensures placed { view seat.new ≡ placed_most (view seat.old) limit word.most word.running 0 }
{
    let LimitWord { most, running } = word;
    let doing = Doing::PlacesMost {
        limit,
        most,
        running,
    };
    add(
        table,
        seat,
        usize::from(limit.0) + LIMITS,
        word.pack(),
        doing,
    );
}

/// The word of a running frame is placed, once its host, its subscription and its limit were.
pub fn place_slot(table: &Table, seat: &mut Seat, slot: Slot, word: FrameWord)
    requires table { IsSeatOf table.now seat.old }
    requires within { (slot < 65536) × FitsFrame word }
    requires may { MayTake (view seat.old) (places slot (frame_bits word)) }
    ensures same { IsSameSeat seat.old seat.new }
    ensures placed { view seat.new ≡ turned_word (view seat.old) slot (frame_bits word) 0 }
{
    let place = slot.0 as usize + FRAMES;
    let word = word.pack();
    swap(table, seat, place, word, Doing::Places { slot, word });
}
