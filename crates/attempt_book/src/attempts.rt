//! The book.

ghost use Rattle.std.specs.Prelude.{◌≡◌, ◌≤◌, ◌<◌, ◌+◌, ◌^◌, ◌++◌, ℕ, length, nat_lt, replicate, true, None, IfOk, slice_get};
ghost use Rattle.std.specs.List.{list_all};
ghost use Rattle.std.specs.Vec.{vec_capacity};
ghost use Rattle.farm_types.specs.Subs.{with_sub};
ghost use Rattle.farm_types.specs.Sums.{total_at};
ghost use Rattle.farm_types.specs.declared.limits.TheConstants.{SLOT_LIMIT, SUB_NUMBERS};
ghost use Rattle.attempt_book.specs.Book.{cores_booked, cores_used, live_in, memory_used, no_attempts};

use crate::sums::{cores_at, memory_at};
use farm_types::{Cores, HostNo, MOST_HOSTS, ProcRow, SLOT_LIMIT, Slot, SubNo};
use std::alloc::{AllocError, Global};
use std::marker::Model;
use sub_ledger::Subs;

/// The live attempts by slot, and the subscriptions of which they are booked. Beside them are kept what the attempts use of each host and of each
/// subscription, and the way along each host's own attempts in the order of their slots: at each host its first attempt's slot, and at each
/// attempt's slot that of the next one, with the mark `SLOT_LIMIT` where there is none.
#[derive(Debug, Drop)]
pub struct Attempts {
    pub(crate) subs: Subs,
    pub(crate) procs: Vec<Option<ProcRow>>,
    pub(crate) cores: Vec<u64>,
    pub(crate) memory: Vec<u128>,
    pub(crate) first: Vec<u32>,
    pub(crate) next: Vec<u32>,
}

impl Model for Attempts {
    ghost use Rattle.attempt_book.specs.Book as types;

    ghost Value = { types.AttemptLists };

    ghost use Rattle.attempt_book.specs.Inside.{lists_of, KeepsAttempts};

    ghost view = { lists_of };

    ghost invariant = { KeepsAttempts };
}

impl Attempts {
    /// No attempts, no slots and no subscriptions. It takes the memory of all.
    pub fn make(alloc: Global) -> Result<Attempts, AllocError>
        ensures { IfOk result (λ b. b ≡ no_attempts) }
    {
        Ok(Attempts {
            subs: Subs::make(alloc)?,
            procs: Vec::with_capacity(alloc, SLOT_LIMIT as usize)?,
            cores: vec![in alloc; 0; MOST_HOSTS as usize]?,
            memory: vec![in alloc; 0; MOST_HOSTS as usize]?,
            first: vec![in alloc; SLOT_LIMIT; MOST_HOSTS as usize]?,
            next: vec![in alloc; SLOT_LIMIT; SLOT_LIMIT as usize]?,
        })
    }

    /// So many slots more, without attempts. It takes no memory.
    pub fn grow(&mut self, count: usize)
        requires { length self.old.procs + count ≤ SLOT_LIMIT }
        ensures { self.new ≡ record self.old { procs = self.old.procs ++ replicate count None } }
    {
        grow_by(&mut self.procs, count);
    }

    /// Sets a subscription's size and burst, and adds it where it isn't there. What is booked stays.
    pub fn set_sub(&mut self, sub: SubNo, size: Cores, burst: Cores)
        requires { sub < SUB_NUMBERS }
        ensures { self.new ≡ record self.old { subs = with_sub (record { sub = sub; size = size; burst = burst }) self.old.subs } }
    {
        self.subs.set(sub, size, burst);
    }

    /// The subscriptions, whose numbers are below the most, and what is booked of each.
    pub fn subs(&self) -> &Subs
        ensures rows { result.now.subs ≡ self.now.subs }
        ensures booked { (sub : ℕ) → total_at result.now.booked sub ≡ cores_booked self.now.procs sub }
        ensures numbers { list_all (λ s. nat_lt s.sub SUB_NUMBERS) self.now.subs ≡ true }
    {
        &self.subs
    }

    /// How many slots there are.
    pub fn count(&self) -> usize
        ensures value { result ≡ length self.now.procs }
        ensures within { result ≤ SLOT_LIMIT }
    {
        self.procs.len()
    }

    /// The live attempt of a slot.
    pub fn live(&self, slot: Slot) -> Option<ProcRow>
        ensures { result ≡ live_in self.now.procs slot }
    {
        live_at(self.procs.as_slice(), slot)
    }

    /// The cores (hundredths) that live attempts use on a host.
    pub fn cores(&self, host: HostNo) -> u64
        ensures { result ≡ cores_used self.now.procs host }
    {
        cores_at(self.cores.as_slice(), host)
    }

    /// The memory (KB) that live attempts use on a host.
    pub fn memory(&self, host: HostNo) -> u128
        ensures value { result ≡ memory_used self.now.procs host }
        ensures within { result < 2 ^ 127 }
    {
        memory_at(self.memory.as_slice(), host)
    }
}

// The live attempt of a slot.
pub(crate) fn live_at(procs: &[Option<ProcRow>], slot: Slot) -> Option<ProcRow>
    ensures { result ≡ live_in procs.now slot }
{
    match procs.get(slot.0 as usize) {
        None => None,
        Some(proc) => *proc,
    }
}

// So many slots more, without attempts.
fn grow_by(procs: &mut Vec<Option<ProcRow>>, count: usize)
    requires { length procs.old.items + count ≤ vec_capacity procs.old }
    ensures items { procs.new.items ≡ procs.old.items ++ replicate count None }
    ensures capacity { vec_capacity procs.new ≡ vec_capacity procs.old }
{
    for _ in 0..count {
        procs.push_reserved(None);
    }
}
