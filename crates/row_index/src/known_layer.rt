//! What is known of a layer beside its row.

ghost use Rattle.std.specs.Prelude.{◌≡◌, ◌≤◌, [], None, Some, length, replicate, slice_get, is_some, not, IfOk};
ghost use Rattle.std.specs.List.{list_any};
ghost use Rattle.frame_range.specs.Places.{place_of};
ghost use Rattle.frame_range.specs.Sets.{numbers_of};
ghost use Rattle.farm_types.specs.Farm.{changed_at};
ghost use Rattle.farm_types.specs.declared.limits.TheConstants.{MOST_FRAMES};
ghost use Rattle.row_index.specs.Index.{found_at, found_with, lacks_any};

use farm_types::Slot;
use frame_range::FrameSet;
use std::alloc::{AllocError, Global};
use std::marker::Model;

/// A layer's numbers, and the slot of each that has one.
#[derive(Drop)]
pub struct KnownLayer {
    set: FrameSet,
    slots: Vec<Option<Slot>>,
}

impl Model for KnownLayer {
    ghost use Rattle.frame_range.specs.Sets.{numbers_of};
    ghost use Rattle.row_index.specs.Index.{LayerKnown};

    ghost Value = { LayerKnown };

    ghost view = { λ k. record { numbers = numbers_of k.set; slots = k.slots.items } };
}

impl KnownLayer {
    /// The numbers of a set, none of which has a slot.
    pub fn make(alloc: Global, set: FrameSet) -> Result<KnownLayer, AllocError>
        ensures value { IfOk result (λ k. k ≡ record { numbers = numbers_of set; slots = replicate (length (numbers_of set)) None }) }
        ensures few { IfOk result (λ k. length (numbers_of set) ≤ MOST_FRAMES) }
    {
        let slots = no_slots(alloc, set.numbers().len())?;
        Ok(KnownLayer { set, slots })
    }

    /// The numbers in range order.
    pub fn numbers(&self) -> &[i32]
        ensures value { result.now ≡ self.now.numbers }
        ensures few { length result.now ≤ MOST_FRAMES }
    {
        self.set.numbers()
    }

    /// The position of a number.
    pub fn position(&self, number: i32) -> Option<usize>
        ensures { result ≡ place_of number self.now.numbers }
    {
        self.set.position(number)
    }

    /// The slot of the number at a position.
    pub fn slot(&self, position: usize) -> Option<Slot>
        ensures { result ≡ found_at self.now.slots position }
    {
        slot_in(self.slots.as_slice(), position)
    }

    /// The slots of the numbers, by their positions.
    pub fn slots(&self) -> &[Option<Slot>]
        ensures { result.now ≡ self.now.slots }
    {
        self.slots.as_slice()
    }

    /// Whether a number has no slot.
    pub fn lacks(&self) -> bool
        ensures { result ≡ lacks_any self.now }
    {
        lacks_in(self.slots.as_slice())
    }

    /// The number at a position has that slot.
    pub fn set(&mut self, position: usize, slot: Slot)
        ensures { self.new ≡ found_with position slot self.old }
    {
        set_at(&mut self.slots, position, slot);
    }
}

// So many numbers without slots.
fn no_slots(alloc: Global, count: usize) -> Result<Vec<Option<Slot>>, AllocError>
    ensures { IfOk result (λ slots. slots.items ≡ replicate count None) }
{
    let mut slots = Vec::with_capacity(alloc, count)?;
    for _ in 0..count {
        slots.push(None)?;
    }
    Ok(slots)
}

// The slot at a position.
fn slot_in(slots: &[Option<Slot>], position: usize) -> Option<Slot>
    ensures { result ≡ found_at slots.now position }
{
    match slots.get(position) {
        None => None,
        Some(slot) => *slot,
    }
}

// Whether there is a position without a slot.
fn lacks_in(slots: &[Option<Slot>]) -> bool
    ensures { result ≡ list_any (λ slot. not (is_some slot)) slots.now }
{
    slots.iter().any(|slot| !slot.is_some())
}

// The slot at a position is that, where there is one.
fn set_at(slots: &mut Vec<Option<Slot>>, position: usize, slot: Slot)
    ensures { slots.new.items ≡ changed_at slots.old.items position (λ _. Some slot) }
{
    if position < slots.len() {
        slots[position] = Some(slot);
    }
}
