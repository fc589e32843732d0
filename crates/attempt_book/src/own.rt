//! A host's own attempts, one after the other.

ghost use Rattle.std.specs.Prelude.{◌≡◌, slice_get};
ghost use Rattle.attempt_book.specs.Book.{first_on, next_on};
ghost use Rattle.attempt_book.specs.Way.{slot_in};

use crate::attempts::{Attempts, live_at};
use farm_types::{HostNo, SLOT_LIMIT, Slot};

impl Attempts {
    /// The first slot with a live attempt on the host.
    pub fn first(&self, host: HostNo) -> Option<Slot>
        ensures { result ≡ first_on self.now.procs host 0 }
    {
        slot_at(self.first.as_slice(), usize::from(host.0))
    }

    /// The next slot with a live attempt on the host of this slot's attempt, none where this one has no attempt.
    pub fn next(&self, slot: Slot) -> Option<Slot>
        ensures { result ≡ next_on self.now.procs slot }
    {
        match live_at(self.procs.as_slice(), slot) {
            None => None,
            Some(_) => slot_at(self.next.as_slice(), slot.0 as usize),
        }
    }
}

// The slot that stands at a place.
fn slot_at(marks: &[u32], place: usize) -> Option<Slot>
    ensures { result ≡ slot_in (slice_get marks.now place) }
{
    match marks.get(place) {
        None => None,
        Some(mark) => marked(*mark),
    }
}

// The slot of a mark.
fn marked(mark: u32) -> Option<Slot>
    ensures { result ≡ slot_in (Some mark) }
{
    if mark == SLOT_LIMIT {
        None
    } else {
        Some(Slot(mark))
    }
}
