//! The way along a host's own attempts, from each to the next, in the order of their slots.

ghost use Rattle.std.specs.Prelude.{◌≡◌, ◌<◌, length, slice_set};
ghost use Rattle.farm_types.specs.Sums.{total_at};
ghost use Rattle.farm_types.specs.declared.limits.TheConstants.{MOST_HOSTS, SLOT_LIMIT};
ghost use Rattle.attempt_book.specs.Way.{IsJoin, first_to, next_to, way_at};

use crate::attempts::Attempts;
use farm_types::{HostNo, Slot};

impl Attempts {
    // Where a slot's place on the host's way is: right behind the last of the host's attempts before the slot, and 0 where there is none.
    pub(crate) fn join(&self, host: HostNo, slot: Slot) -> u32
        requires host { host < MOST_HOSTS }
        requires slot { slot < SLOT_LIMIT }
        ensures { IsJoin self.now.procs host slot result }
    {
        let mut from = 0;
        let mut at = self.first[usize::from(host.0)];
        while at < slot.0 {
            from = at + 1;
            at = self.next[at as usize];
        }
        from
    }
}

/// The slot is put on the host's way, at its place there.
pub(crate) fn link(first: &mut Vec<u32>, next: &mut Vec<u32>, host: HostNo, from: u32, slot: Slot)
    requires host { host < length first.old.items }
    requires slot { slot < length next.old.items }
    requires from { from < length next.old.items }
    ensures first { first.new.items ≡ first_to first.old.items host from slot }
    ensures next { next.new.items ≡ next_to (slice_set next.old.items slot (way_at first.old.items next.old.items host from)) from slot }
{
    let place = slot.0 as usize;
    if from == 0 {
        next[place] = first[usize::from(host.0)];
        first[usize::from(host.0)] = slot.0;
    } else {
        let before = from as usize - 1;
        next[place] = next[before];
        next[before] = slot.0;
    }
}

/// The slot is taken off the host's way, at its place there.
pub(crate) fn unlink(first: &mut Vec<u32>, next: &mut Vec<u32>, host: HostNo, from: u32, slot: Slot)
    requires host { host < length first.old.items }
    requires slot { slot < length next.old.items }
    requires from { from < length next.old.items }
    ensures first { first.new.items ≡ first_to first.old.items host from (total_at next.old.items slot) }
    ensures next { next.new.items ≡ next_to next.old.items from (total_at next.old.items slot) }
{
    let after = next[slot.0 as usize];
    if from == 0 {
        first[usize::from(host.0)] = after;
    } else {
        next[from as usize - 1] = after;
    }
}
