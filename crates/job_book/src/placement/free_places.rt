//! Where the frames of a job would go.

ghost use Rattle.std.specs.Prelude.{◌≡◌, ◌≤◌, ◌-◌, ◌++◌, ℕ, drop, length, map, IfOk, OnOk};
ghost use Rattle.std.specs.List.{concat};
ghost use Rattle.farm_types.specs.Jobs.{frames_in};
ghost use Rattle.farm_types.specs.declared.limits.TheConstants.{MOST_FRAMES, SLOT_LIMIT};
ghost use Rattle.job_book.specs.Layers.{new_slot, place_in};
ghost use Rattle.job_book.specs.Lowest.{lowest_free, places_from};

use crate::jobs::Jobs;
use crate::placement::put::is_free;
use farm_types::{Items, LayerSpec, Slot, SlotRow};
use std::alloc::{AllocError, Global};

impl Jobs {
    /// The slots that the frames of a new job with these layers would take, layer by layer, each in range order. Nothing changes.
    pub fn places_for(
        &self,
        alloc: Global,
        layers: &Items<LayerSpec>,
    ) -> Result<Items<Items<Slot>>, AllocError>
        requires { frames_in layers.now ≤ MOST_FRAMES }
        ensures found { IfOk result (λ places. (layer position : ℕ) → new_slot self.now layers.now layer position ≡ place_in places layer position) }
        ensures counts { IfOk result (λ places. map length places ≡ map (λ l. length l.numbers) layers.now) }
    {
        self.kept();
        let count = layers.count_frames() as u32;
        let places = self.free_slots(alloc, count)?;
        let lists = layer_by_layer(alloc, places.as_slice(), layers.as_slice())?;
        Ok(lists)
    }

    /// So many free slots, the lowest ones.
    pub(crate) fn free_slots(&self, alloc: Global, count: u32) -> Result<Items<Slot>, AllocError>
        requires { count ≤ MOST_FRAMES }
        ensures { IfOk result (λ places. places ≡ lowest_free 0 self.now.slots count) }
    {
        let places = free_places(
            alloc,
            self.slots.as_slice(),
            self.lowest as usize,
            count as usize,
        )?;
        Ok(Items::from_vec(places))
    }
}

// The places of so many free slots, the lowest ones from a place on.
fn free_places(
    alloc: Global,
    slots: &[SlotRow],
    first: usize,
    count: usize,
) -> Result<Vec<Slot>, AllocError>
    requires slot_count { length slots.now ≤ SLOT_LIMIT }
    requires within { first ≤ length slots.now }
    requires few { count ≤ MOST_FRAMES }
    ensures { IfOk result (λ places. places.items ≡ lowest_free first (drop first slots.now) count) }
{
    let mut places = Vec::with_capacity(alloc, count)?;
    for place in first..slots.len() {
        if places.len() == count {
            return Ok(places);
        }
        if !is_free(&slots[place]) {
            continue;
        }
        places.push(Slot(place as u32))?;
    }
    add_unused(&mut places, slots.len(), count)?;
    Ok(places)
}

// As many places more, from this one on, as make the count.
fn add_unused(places: &mut Vec<Slot>, first: usize, count: usize) -> Result<(), AllocError>
    requires few { length places.old.items ≤ count }
    requires within { first ≤ SLOT_LIMIT }
    requires count { count ≤ MOST_FRAMES }
    ensures { OnOk result (places.new.items ≡ places.old.items ++ places_from first (count - length places.old.items)) }
{
    let more = count - places.len();
    for place in first..first + more {
        places.push(Slot(place as u32))?;
    }
    Ok(())
}

// The places of each layer's frames.
fn layer_by_layer(
    alloc: Global,
    places: &[Slot],
    layers: &[LayerSpec],
) -> Result<Items<Items<Slot>>, AllocError>
    requires { length places.now ≡ frames_in layers.now }
    ensures places { IfOk result (λ lists. concat lists ≡ places.now) }
    ensures counts { IfOk result (λ lists. map length lists ≡ map (λ l. length l.numbers) layers.now) }
{
    let mut lists = Items::new(alloc);
    let mut first = 0;
    for layer in layers {
        let end = first + layer.numbers.len();
        lists.push(Items::from_vec(Vec::from_slice(alloc, &places[first..end])?))?;
        first = end;
    }
    Ok(lists)
}
