//! Where the frames of a layer stand, and which of them wait.

ghost use Rattle.std.specs.Prelude.{◌≡◌, ◌<◌, length, replicate, slice_get, slice_set, true, IfOk};
ghost use Rattle.job_index.specs.Places.{first_marked, marked, with_slot};

use farm_types::Slot;
use place_set::PlaceSet;
use std::alloc::{AllocError, Global};
use std::marker::Model;

/// The slots of a layer's frames, in range order, and the positions of those that wait.
#[derive(Debug, Drop)]
pub struct LayerFrames {
    slots: Vec<Slot>,
    waiting: PlaceSet,
}

impl Model for LayerFrames {
    ghost use Rattle.job_index.specs.Places as types;

    ghost Value = { types.LayerPlaces };

    ghost view = { λ frames. record { slots = frames.slots.items; waiting = frames.waiting } };
}

impl LayerFrames {
    /// So many frames, which all wait, with no slots yet.
    pub fn make(alloc: Global, count: usize) -> Result<LayerFrames, AllocError>
        ensures { IfOk result (λ frames. frames ≡ record { slots = replicate count 0; waiting = replicate count true }) }
    {
        Ok(LayerFrames {
            slots: vec![in alloc; Slot(0); count]?,
            waiting: PlaceSet::full(alloc, count)?,
        })
    }

    /// The frame at the position stands in that slot.
    pub fn set(&mut self, position: usize, slot: Slot)
        requires { position < length self.old.slots }
        ensures { self.new ≡ record self.old { slots = slice_set self.old.slots position slot } }
    {
        self.slots[position] = slot;
    }

    /// The frame at the position stands in that slot, and whether it waits is noted. A position past the last is left alone.
    pub fn note(&mut self, position: u32, slot: Slot, waits: bool)
        ensures { self.new ≡ with_slot position slot waits self.old }
    {
        set_slot(&mut self.slots, position as usize, slot);
        self.waiting.put(position as usize, waits);
    }

    /// The slot of the frame at the position.
    pub fn at(&self, position: u32) -> Option<Slot>
        ensures { result ≡ slice_get self.now.slots position }
    {
        self.slots.get(position as usize).copied()
    }

    /// The slots of the frames, in range order.
    pub fn slots(&self) -> &[Slot]
        ensures { result.now ≡ self.now.slots }
    {
        self.slots.as_slice()
    }

    /// Whether the frame at the position waits is noted.
    pub fn mark(&mut self, position: u32, waits: bool)
        ensures { self.new ≡ marked position waits self.old }
    {
        self.waiting.put(position as usize, waits);
    }

    /// The slot of the first waiting frame at the position or later.
    pub fn first_waiting(&self, from: u32) -> Option<Slot>
        ensures { result ≡ first_marked from self.now }
    {
        let Some(position) = self.waiting.first_from(from as usize) else {
            return None;
        };
        self.slots.get(position).copied()
    }

    /// An equal layer.
    pub fn copy(&self, alloc: Global) -> Result<LayerFrames, AllocError>
        ensures { IfOk result (λ copy. copy ≡ self.now) }
    {
        Ok(LayerFrames {
            slots: Vec::from_slice(alloc, self.slots.as_slice())?,
            waiting: self.waiting.copy(alloc)?,
        })
    }
}

// The item at a place is set. A place past the last is left alone.
fn set_slot(slots: &mut Vec<Slot>, place: usize, slot: Slot)
    ensures { slots.new.items ≡ slice_set slots.old.items place slot }
{
    if place < slots.len() {
        slots[place] = slot;
    }
}
