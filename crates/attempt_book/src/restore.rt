//! The book of given subscriptions and slots.

ghost use Rattle.std.specs.Prelude.{◌≡◌, ◌≤◌, ◌<◌, ◌^◌, ℕ, [], IfOk, length, slice_set, true, Some};
ghost use Rattle.std.specs.List.{list_all};
ghost use Rattle.farm_types.specs.Rising.{IsRising, sub_key};
ghost use Rattle.farm_types.specs.declared.limits.TheConstants.{SLOT_LIMIT, SUB_NUMBERS};
ghost use Rattle.attempt_book.specs.Book.{cores_booked};
ghost use Rattle.attempt_book.specs.Restore.{CanResume, CanResumeAll, CanResumeIn, is_known_proc, procs_in};

use crate::attempts::Attempts;
use crate::begin::set_at;
use crate::sums::{raise_cores, raise_memory};
use crate::way::link;
use farm_types::{ProcRow, Slot, SlotRow, SubRow};
use std::alloc::{AllocError, Global};

impl Attempts {
    /// The book of these subscriptions, and of the live attempts of these slots. What is booked of a subscription may be more than its burst, as where
    /// an operator lowered it.
    pub fn of_slots(
        alloc: Global,
        subs: &[SubRow],
        slots: &[SlotRow],
    ) -> Result<Attempts, AllocError>
        requires subs { IsRising sub_key 0 subs.now SUB_NUMBERS }
        requires count { length slots.now ≤ SLOT_LIMIT }
        requires known { list_all (is_known_proc subs.now) (procs_in slots.now) ≡ true }
        requires booked { (n : ℕ) → cores_booked (procs_in slots.now) n < 2 ^ 32 }
        ensures { IfOk result (λ b. b ≡ record { subs = subs.now; procs = procs_in slots.now }) }
    {
        let mut book = Attempts::of_subs(alloc, subs)?;
        book.grow(slots.len());
        book.resume_all(slots);
        Ok(book)
    }

    // The book of these subscriptions, with no slots.
    fn of_subs(alloc: Global, subs: &[SubRow]) -> Result<Attempts, AllocError>
        requires { IsRising sub_key 0 subs.now SUB_NUMBERS }
        ensures { IfOk result (λ b. b ≡ record { subs = subs.now; procs = [] }) }
    {
        let mut book = Attempts::make(alloc)?;
        for row in subs {
            book.set_sub(row.sub, row.size, row.burst);
        }
        Ok(book)
    }

    // The attempts of the slots go on, from the last slot to the first: so each is the first of its host's own as it is put on their way.
    fn resume_all(&mut self, slots: &[SlotRow])
        requires { CanResumeAll self.old (procs_in slots.now) }
        ensures { self.new ≡ record self.old { procs = procs_in slots.now } }
    {
        let mut place = slots.len();
        while place > 0 {
            place -= 1;
            self.resume_row(Slot(place as u32), &slots[place]);
        }
    }

    // The slot's attempt goes on, where it has one.
    fn resume_row(&mut self, slot: Slot, row: &SlotRow)
        requires { CanResumeIn self.old slot row.now.proc }
        ensures { self.new ≡ record self.old { procs = slice_set self.old.procs slot row.now.proc } }
    {
        if let Some(proc) = row.proc {
            self.resume(slot, proc);
        }
    }

    // An attempt that began before goes on in a slot. It takes no memory.
    fn resume(&mut self, slot: Slot, proc: ProcRow)
        requires { CanResume self.old slot proc }
        ensures { self.new ≡ record self.old { procs = slice_set self.old.procs slot (Some proc) } }
    {
        let from = self.join(proc.host, slot);
        link(&mut self.first, &mut self.next, proc.host, from, slot);
        raise_cores(&mut self.cores, proc.host, proc.cores);
        raise_memory(&mut self.memory, proc.host, proc.memory);
        self.subs.count(proc.sub, proc.cores);
        set_at(&mut self.procs, slot, Some(proc));
    }
}
