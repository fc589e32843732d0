//! The words of hosts, subscriptions and limits as they are.

ghost use Rattle.std.specs.Prelude.{◌≡◌, ◌<◌, ℕ};
ghost use Rattle.frame_words.specs.Bits.{host_of, sub_of, limit_of};
ghost use Rattle.booking_rule.specs.Words.{host_place, sub_place, limit_place};
ghost use Rattle.booking_rule.specs.Seats.{IsSeated};
ghost use Rattle.booking_core.specs.Kinds.{loaded};
ghost use Rattle.booking_table.specs.Seats.{view, IsSeatOf, IsSameSeat};

use crate::table::{Seat, Table};
use farm_types::{HostNo, LimitNo, SubNo};
use frame_words::{HostWord, LimitWord, SubWord};

impl Table {
    /// What a host has free, by one load.
    pub fn host_word(&self, seat: &mut Seat, host: HostNo) -> HostWord
        requires table { IsSeatOf self.now seat.old }
        requires seated { IsSeated (view seat.old) }
        requires within { host < 4096 }
        ensures same { IsSameSeat seat.old seat.new }
        ensures loaded { (found : ℕ) × (result ≡ host_of found) × (view seat.new ≡ loaded (view seat.old) (host_place host) found) }
    {
        HostWord::unpack(self.load_host(seat, host))
    }

    /// A subscription's burst, and what is booked of it, by one load.
    pub fn sub_word(&self, seat: &mut Seat, sub: SubNo) -> SubWord
        requires table { IsSeatOf self.now seat.old }
        requires seated { IsSeated (view seat.old) }
        requires within { sub < 1024 }
        ensures same { IsSameSeat seat.old seat.new }
        ensures loaded { (found : ℕ) × (result ≡ sub_of found) × (view seat.new ≡ loaded (view seat.old) (sub_place sub) found) }
    {
        SubWord::unpack(self.load_sub(seat, sub))
    }

    /// How many frames may run under a limit, and how many do, by one load.
    pub fn limit_word(&self, seat: &mut Seat, limit: LimitNo) -> LimitWord
        requires table { IsSeatOf self.now seat.old }
        requires seated { IsSeated (view seat.old) }
        requires within { limit < 255 }
        ensures same { IsSameSeat seat.old seat.new }
        ensures loaded { (found : ℕ) × (result ≡ limit_of found) × (view seat.new ≡ loaded (view seat.old) (limit_place limit) found) }
    {
        LimitWord::unpack(self.load_limit(seat, limit))
    }
}
