//! Room on a host: taken, and given back.

ghost use Rattle.std.specs.Prelude.{◌≡◌, ◌<◌, ◌≤◌, ℕ, true, [], IfErr, MatchResult};
ghost use Rattle.farm_types.specs.Limits.{IsBetween};
ghost use Rattle.farm_types.specs.declared.limits.TheConstants.{LEAST_MEMORY, MOST_CORES, MOST_MEMORY};
ghost use Rattle.frame_words.specs.Bits.{FitsHost};
ghost use Rattle.booking_rule.specs.Alone.{IsAlone, ShowsRoom};
ghost use Rattle.booking_rule.specs.Seats.{IsSeated};
ghost use Rattle.booking_rule.specs.Views.{holds, room_of, same_room};
ghost use Rattle.booking_core.specs.Kinds.{gave_host};
ghost use Rattle.booking_core.specs.Machine.{MayGive, MayGiveRoom};
ghost use Rattle.booking_table.specs.Seats.{view, IsSeatOf, IsSameSeat};
ghost use Rattle.booking_table.specs.Holds.{IsBurst, hold_of, HasHold};
ghost use Rattle.booking_table.specs.Alone.{ShowsShort};
ghost use Rattle.booking_table.specs.Calls.{IsRoomTaken, IsShort, IsWholeTaken, IsOtherFree, hold_given};

use crate::holds::{BurstHold, Hold};
use crate::table::{Seat, Table};
use farm_types::{Cores, HostNo, Kb};
use frame_words::HostWord;

/// No room was taken. `NoRoom`: the host had these amounts free, of which one is less than is wanted. `Moved`: it had enough free
/// by the word that was looked at, and the exchange found another one.
#[derive(Clone, Copy, Debug, PartialEq, Eq)]
pub enum HostShort {
    NoRoom { cores: Cores, memory: Kb },
    Moved { expected: u64, found: u64 },
}

impl Table {
    /// Takes room on a host for cores that are held, by a look at what it has free and one exchange.
    pub fn take_host(
        &self,
        seat: &mut Seat,
        burst: BurstHold,
        host: HostNo,
        memory: Kb,
    ) -> Result<Hold, (BurstHold, HostNo, HostShort)>
        requires table { IsSeatOf self.now seat.old }
        requires seated { IsSeated (view seat.old) }
        requires burst { IsBurst burst }
        requires within { (host < 4096) × IsBetween LEAST_MEMORY MOST_MEMORY memory }
        ensures same { IsSameSeat seat.old seat.new }
        ensures answer { MatchResult result
            (λ h. (h ≡ hold_of burst host memory) × IsRoomTaken (view seat.old) host burst.cores memory (view seat.new))
            (λ e. (e.0 ≡ burst) × (e.1 ≡ host) × IsShort (view seat.old) host burst.cores memory e.2 (view seat.new)) }
        ensures alone { IsAlone [] (view seat.old) → IfErr result (λ e. ShowsShort (view seat.old) host e.2) }
    {
        let expected = self.load_host(seat, host);
        let free = HostWord::unpack(expected);
        if free.cores.0 < burst.cores.0 || free.memory.0 < memory.0 {
            let short = HostShort::NoRoom {
                cores: free.cores,
                memory: free.memory,
            };
            return Err((burst, host, short));
        }
        let found = self.take_free(seat, host, burst.cores, memory, expected);
        if found != expected {
            return Err((burst, host, HostShort::Moved { expected, found }));
        }
        Ok(Hold {
            burst,
            host,
            memory,
        })
    }

    /// Gives all of a hold back: the host's room, the place in the limit, the cores. The recorder's seat gives no room back
    /// on a host that is to be resized.
    pub fn give_back(&self, seat: &mut Seat, hold: Hold)
        requires table { IsSeatOf self.now seat.old }
        requires may { MayGive (view seat.old) }
        requires held { HasHold (view seat.old) hold }
        requires room { MayGiveRoom (view seat.old) hold.host }
        ensures same { IsSameSeat seat.old seat.new }
        ensures given { (room place found : ℕ) × (view seat.new ≡ hold_given (view seat.old) hold room place found) }
    {
        let Hold {
            burst,
            host,
            memory,
        } = hold;
        self.give_free(seat, host, burst.cores, memory);
        self.give_burst(seat, burst);
    }

    /// Takes all that a host has free, where it is exactly this, by a look and one exchange; else it tells what was free.
    pub fn take_whole(&self, seat: &mut Seat, host: HostNo, free: HostWord) -> Result<(), HostWord>
        requires table { IsSeatOf self.now seat.old }
        requires seated { IsSeated (view seat.old) }
        requires within { (host < 4096) × FitsHost free }
        ensures same { IsSameSeat seat.old seat.new }
        ensures answer { MatchResult result
            (λ _. IsWholeTaken (view seat.old) host free (view seat.new))
            (λ found. IsOtherFree (view seat.old) host free found (view seat.new)) }
        ensures alone { IsAlone [] (view seat.old) → IfErr result (λ found. ShowsRoom (view seat.old) host found) }
    {
        let HostWord { cores, memory } = free;
        let expected = free.pack();
        let word = self.load_host(seat, host);
        if word != expected {
            return Err(HostWord::unpack(word));
        }
        let found = self.take_free(seat, host, cores, memory, expected);
        if found != expected {
            return Err(HostWord::unpack(found));
        }
        Ok(())
    }

    /// Gives room back on a host that isn't to be resized by this seat.
    pub fn give_whole(&self, seat: &mut Seat, host: HostNo, room: HostWord)
        requires table { IsSeatOf self.now seat.old }
        requires may { MayGive (view seat.old) }
        requires within { (host < 4096) × (room.cores ≤ MOST_CORES) × (room.memory ≤ MOST_MEMORY) }
        requires held { holds same_room (room_of host room.cores room.memory) (view seat.old).rooms ≡ true }
        requires room { MayGiveRoom (view seat.old) host }
        ensures same { IsSameSeat seat.old seat.new }
        ensures given { (found : ℕ) × (view seat.new ≡ gave_host (view seat.old) host room.cores room.memory found) }
    {
        let HostWord { cores, memory } = room;
        self.give_free(seat, host, cores, memory);
    }
}
