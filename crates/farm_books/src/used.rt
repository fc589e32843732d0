//! What live attempts use of a host, of a subscription and of a limit, as it is kept, and each host's own attempts.

ghost use Rattle.std.specs.Prelude.{◌≡◌, ◌<◌, ◌^◌, length};
ghost use Rattle.farm_types.specs.Sums.{booked_in, running_in, used_cores, used_memory};
ghost use Rattle.attempt_book.specs.Book.{first_on, next_on};
ghost use Rattle.farm_books.specs.Install.{procs_of};

use crate::books::Books;
use farm_types::{Cores, HostNo, LimitNo, Slot, SubNo};

impl Books {
    /// The cores (hundredths) that live attempts use on a host: none where there is no such host.
    pub fn used_cores(&self, host: HostNo) -> u64
        ensures { result ≡ used_cores self.now.farm host }
    {
        self.attempts.cores(host)
    }

    /// The memory (KB) that live attempts use on a host: none where there is no such host.
    pub fn used_memory(&self, host: HostNo) -> u128
        ensures value { result ≡ used_memory self.now.farm host }
        ensures within { result < 2 ^ 127 }
    {
        self.attempts.memory(host)
    }

    /// The cores that are booked of a subscription.
    pub fn booked(&self, sub: SubNo) -> Cores
        ensures { result ≡ booked_in self.now.farm sub }
    {
        self.attempts.subs().booked(sub)
    }

    /// How many frames run in a limit that is there.
    pub fn running(&self, limit: LimitNo) -> u32
        ensures { limit < length self.now.farm.limits → result ≡ running_in self.now.farm limit }
    {
        self.limits().running(limit)
    }

    /// The first slot with a live attempt on the host.
    pub fn first_attempt(&self, host: HostNo) -> Option<Slot>
        ensures { result ≡ first_on (procs_of self.now.farm.slots) host 0 }
    {
        self.attempts.first(host)
    }

    /// The next slot with a live attempt on the host of this slot's attempt, none where this one has no attempt.
    pub fn next_attempt(&self, slot: Slot) -> Option<Slot>
        ensures { result ≡ next_on (procs_of self.now.farm.slots) slot }
    {
        self.attempts.next(slot)
    }
}
