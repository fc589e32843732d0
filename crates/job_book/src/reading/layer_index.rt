//! What is read of where the frames of a job's layers stand, and that of a new job.

ghost use Rattle.std.specs.Prelude.{◌≡◌, ℕ, map, slice_get, option_and_then, IfOk};
ghost use Rattle.job_book.specs.Layers.{fresh_places, place_in, slots_of};
ghost use Rattle.job_index.specs.Places.{first_marked};

use farm_types::{LayerSpec, Slot};
use job_index::LayerFrames;
use std::alloc::{AllocError, Global};

/// The slot at a position of the layer at that place.
pub(crate) fn slot_in(index: &[LayerFrames], place: usize, position: u32) -> Option<Slot>
    ensures { result ≡ place_in (map slots_of index.now) place position }
{
    match index.get(place) {
        None => None,
        Some(frames) => frames.at(position),
    }
}

/// The slots of the layer at that place, none where there is no layer.
pub(crate) fn slots_in(index: &[LayerFrames], place: usize) -> &[Slot]
    ensures { (position : ℕ) → slice_get result.now position ≡ place_in (map slots_of index.now) place position }
{
    match index.get(place) {
        None => &[],
        Some(frames) => frames.slots(),
    }
}

/// The slot of the first waiting frame of the layer at that place, at the position or later.
pub(crate) fn waiting_in(index: &[LayerFrames], place: usize, from: u32) -> Option<Slot>
    ensures { result ≡ option_and_then (first_marked from) (slice_get index.now place) }
{
    match index.get(place) {
        None => None,
        Some(frames) => frames.first_waiting(from),
    }
}

/// The layers of a job whose frames have no slots yet, and all wait.
pub(crate) fn fresh_layers(
    alloc: Global,
    layers: &[LayerSpec],
) -> Result<Vec<LayerFrames>, AllocError>
    ensures { IfOk result (λ index. index.items ≡ map fresh_places layers.now) }
{
    let mut index = Vec::new(alloc);
    for layer in layers {
        index.push(LayerFrames::make(alloc, layer.numbers.len())?)?;
    }
    Ok(index)
}
