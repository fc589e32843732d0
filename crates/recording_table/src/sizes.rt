//! A subscription's burst, a limit's most and a host's size.

ghost use Rattle.std.specs.Prelude.{◌≡◌, ℕ, ◌<◌};
ghost use Rattle.frame_words.specs.Bits.{FitsHost, sub_of, limit_of};
ghost use Rattle.recording_core.specs.Records.{raise_by, raised_burst, raised_most, sized};
ghost use Rattle.recording_core.specs.Records.RecorderKind.{sets_burst, sets_most, sets_size};
ghost use Rattle.booking_table.specs.Seats.{view, IsSeatOf, IsSameSeat};
ghost use Rattle.recording_table.specs.Steps.{MayTake};

use crate::doing::Doing;
use crate::steps::add;
use booking_table::{Seat, Table};
use farm_types::{Cores, HostNo, LimitNo, SubNo};
use frame_words::{HostWord, LimitWord, SubWord};

// where the words stand
const HOSTS: usize = 131_073;

const SUBS: usize = 135_169;

const LIMITS: usize = 136_193;

// the difference of two numbers in a word's upper half
fn difference(old: u32, new: u32) -> u64
    ensures difference { result ≡ raise_by old new }
{
    (u64::from(new) << 32).wrapping_sub(u64::from(old) << 32)
}

/// Sets a subscription's burst: the difference is added to its word. What is booked stays. It tells the word that it found.
pub fn set_burst(table: &Table, seat: &mut Seat, sub: SubNo, old: Cores, new: Cores) -> SubWord
    requires table { IsSeatOf table.now seat.old }
    requires within { sub < 1024 }
    requires may { MayTake (view seat.old) (sets_burst sub old new) }
    ensures same { IsSameSeat seat.old seat.new }
    ensures set { (found : ℕ) × (result ≡ sub_of found) × (view seat.new ≡ raised_burst (view seat.old) sub old new found) }
    ensures was { result.burst ≡ old }
{
    let place = usize::from(sub.0) + SUBS;
    let doing = Doing::SetsBurst { sub, old, new };
    let found = add(table, seat, place, difference(old.0, new.0), doing);
    SubWord::unpack(found)
}

/// Sets how many frames may run in a limit: the difference is added to its word. What runs stays. It tells the word that
/// it found.
pub fn set_most(table: &Table, seat: &mut Seat, limit: LimitNo, old: u32, new: u32) -> LimitWord
    requires table { IsSeatOf table.now seat.old }
    requires within { limit < 255 }
    requires may { MayTake (view seat.old) (sets_most limit old new) }
    ensures same { IsSameSeat seat.old seat.new }
    ensures set { (found : ℕ) × (result ≡ limit_of found) × (view seat.new ≡ raised_most (view seat.old) limit old new found) }
    ensures was { result.most ≡ old }
{
    let place = usize::from(limit.0) + LIMITS;
    let doing = Doing::SetsMost { limit, old, new };
    let found = add(table, seat, place, difference(old, new), doing);
    LimitWord::unpack(found)
}

/// Adds a host's size to its word, where nothing is free. The seat's room there goes.
pub fn set_size(table: &Table, seat: &mut Seat, host: HostNo, size: HostWord)
    requires table { IsSeatOf table.now seat.old }
    requires within { host < 4096 }
    requires fits { FitsHost size }
    requires may { MayTake (view seat.old) (sets_size host size.cores size.memory) }
    ensures same { IsSameSeat seat.old seat.new }
    ensures set { view seat.new ≡ sized (view seat.old) host size.cores size.memory 0 }
{
    let place = usize::from(host.0) + HOSTS;
    let HostWord { cores, memory } = size;
    let doing = Doing::SetsSize {
        host,
        cores,
        memory,
    };
    add(table, seat, place, size.pack(), doing);
}
