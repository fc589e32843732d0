//! What a change opened.

ghost use Rattle.std.specs.Prelude.{◌≡◌, ◌+◌, ◌++◌, ◌∷◌, ◌<◌, ◌≤◌, [], IfOk, count_by, length};
ghost use Rattle.std.specs.List.Sorted.{IsNonDecreasing, IsPermutation};
ghost use Rattle.std.specs.Vec.{vec_capacity};
ghost use Rattle.farm_types.specs.declared.limits.TheConstants.{MOST_DEPENDS, SLOT_LIMIT};
ghost use Rattle.depend_graph.specs.Flow.{all_freed, freed, is_positive, waiting_of};
ghost use Rattle.depend_graph.specs.Graph.{nothing_opened};

use farm_types::{DependNo, MOST_DEPENDS, SLOT_LIMIT, Slot};
use std::alloc::{AllocError, Global};
use std::marker::Model;

/// The frames that the last change opened, by slot, in order, and the numbers of the depends that it satisfied. There is room for all slots and
/// all depends.
#[derive(Drop)]
pub struct Opened {
    pub(crate) slots: Vec<Slot>,
    pub(crate) satisfied: Vec<DependNo>,
}

impl Model for Opened {
    ghost use Rattle.depend_graph.specs.Graph as types;

    ghost Value = { types.OpenedLists };

    ghost use Rattle.depend_graph.specs.OpenedInside.{HasRoom, opened_in};

    ghost view = { opened_in };

    ghost invariant = { HasRoom };
}

impl Opened {
    /// Nothing opened yet. It takes the memory for all slots and depends.
    pub fn make(alloc: Global) -> Result<Opened, AllocError>
        ensures { IfOk result (λ opened. opened ≡ nothing_opened) }
    {
        Ok(Opened {
            slots: Vec::with_capacity(alloc, SLOT_LIMIT as usize)?,
            satisfied: Vec::with_capacity(alloc, MOST_DEPENDS as usize)?,
        })
    }

    /// The slots of the frames that were opened, in order.
    pub fn slots(&self) -> &[Slot]
        ensures { result.now ≡ self.now.slots }
    {
        self.slots.as_slice()
    }

    /// The numbers of the depends that became satisfied.
    pub fn satisfied(&self) -> &[DependNo]
        ensures { result.now ≡ self.now.satisfied }
    {
        self.satisfied.as_slice()
    }

    // Nothing opened.
    pub(crate) fn clear(&mut self)
        ensures { self.new ≡ nothing_opened }
    {
        self.slots.clear();
        self.satisfied.clear();
    }

    // The frames of these slots wait in one unmet group fewer, and those that waited in no other are listed.
    pub(crate) fn open_waiters(&mut self, unmet: &mut Vec<u32>, waiters: &[Slot])
        requires room { length self.old.slots + count_by is_positive unmet.old.items ≤ SLOT_LIMIT }
        ensures slots { self.new ≡ record self.old { slots = (all_freed (waiting_of unmet.old.items self.old.slots) waiters.now).slots } }
        ensures unmet { unmet.new.items ≡ (all_freed (waiting_of unmet.old.items self.old.slots) waiters.now).unmet }
    {
        free_waiters(unmet, &mut self.slots, waiters);
    }

    // A depend became satisfied.
    pub(crate) fn satisfy(&mut self, depend: DependNo)
        requires room { length self.old.satisfied < MOST_DEPENDS }
        ensures { self.new ≡ record self.old { satisfied = self.old.satisfied ++ depend ∷ [] } }
    {
        self.satisfied.push_reserved(depend);
    }

    // The slots are put in order.
    pub(crate) fn sort(&mut self)
        ensures sorted { IsNonDecreasing self.new.slots }
        ensures moved { IsPermutation self.old.slots self.new.slots }
        ensures satisfied { self.new.satisfied ≡ self.old.satisfied }
    {
        self.slots.sort_unstable();
    }
}

// The frames of these slots wait in one unmet group fewer, and those that waited in no other are listed.
fn free_waiters(unmet: &mut Vec<u32>, slots: &mut Vec<Slot>, waiters: &[Slot])
    requires room { length slots.old.items + count_by is_positive unmet.old.items ≤ vec_capacity slots.old }
    ensures slots { slots.new.items ≡ (all_freed (waiting_of unmet.old.items slots.old.items) waiters.now).slots }
    ensures unmet { unmet.new.items ≡ (all_freed (waiting_of unmet.old.items slots.old.items) waiters.now).unmet }
    ensures capacity { vec_capacity slots.new ≡ vec_capacity slots.old }
{
    for waiter in waiters {
        free_waiter(unmet, slots, waiter);
    }
}

// The frame of the slot waits in one unmet group fewer, and is listed if it waited in no other.
fn free_waiter(unmet: &mut Vec<u32>, slots: &mut Vec<Slot>, waiter: &Slot)
    requires room { length slots.old.items + count_by is_positive unmet.old.items ≤ vec_capacity slots.old }
    ensures freed { waiting_of unmet.new.items slots.new.items ≡ freed (waiting_of unmet.old.items slots.old.items) waiter.now }
    ensures room { length slots.new.items + count_by is_positive unmet.new.items ≡ length slots.old.items + count_by is_positive unmet.old.items }
    ensures capacity { vec_capacity slots.new ≡ vec_capacity slots.old }
{
    let place = waiter.0 as usize;
    if place < unmet.len() {
        if unmet[place] == 1 {
            slots.push_reserved(*waiter);
        }
        unmet[place] = unmet[place].saturating_sub(1);
    }
}
