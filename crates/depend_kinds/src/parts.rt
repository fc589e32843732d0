//! The frames that an end names.

ghost use Rattle.std.specs.Prelude.{◌≡◌, IfOk, []};
ghost use Rattle.farm_types.specs.Groups.{all_slots, layer_called, part_of, slots_at, slots_of_part};
ghost use Rattle.depend_kinds.specs.Found.{found_or};

use crate::layer::layer_called;
use crate::numbered::slot_numbered;
use farm_types::{Items, LayerShape, Place, Shape, Slot, Text};
use std::alloc::{AllocError, Global};

/// The slots of the frames that an end names, layer by layer, in range order.
pub fn slots_at(alloc: Global, shape: &Shape, place: &Place) -> Result<Items<Slot>, AllocError>
    ensures { IfOk result (λ slots. slots ≡ slots_at shape.now (part_of place.now)) }
{
    match &place.layer {
        None => all_slots(alloc, shape.layers.as_slice()),
        Some(name) => slots_of_called(alloc, shape.layers.as_slice(), name, place.frame),
    }
}

// The slots of all layers, in order.
fn all_slots(alloc: Global, layers: &[LayerShape]) -> Result<Items<Slot>, AllocError>
    ensures { IfOk result (λ slots. slots ≡ all_slots layers.now) }
{
    let mut slots = Vec::new(alloc);
    for layer in layers {
        slots.extend_from_slice(layer.slots.as_slice())?;
    }
    Ok(Items::from_vec(slots))
}

// The slots of the first layer of that name, or that of its frame of that number.
fn slots_of_called(
    alloc: Global,
    layers: &[LayerShape],
    name: &Text,
    frame: Option<i32>,
) -> Result<Items<Slot>, AllocError>
    ensures { IfOk result (λ slots. slots ≡ slots_of_part (layer_called name.now layers.now) frame) }
{
    match layer_called(layers, name) {
        None => Ok(Items::new(alloc)),
        Some(layer) => slots_of_part(alloc, layer, frame),
    }
}

// The slots of a layer, or that of its frame of that number.
fn slots_of_part(
    alloc: Global,
    layer: &LayerShape,
    frame: Option<i32>,
) -> Result<Items<Slot>, AllocError>
    ensures { IfOk result (λ slots. slots ≡ slots_of_part layer.now frame) }
{
    match frame {
        None => layer.slots.copy(alloc),
        Some(number) => found(
            alloc,
            slot_numbered(number, layer.numbers.as_slice(), layer.slots.as_slice()),
        ),
    }
}

// The slot that was found, alone, or none.
fn found(alloc: Global, slot: Option<Slot>) -> Result<Items<Slot>, AllocError>
    ensures { IfOk result (λ slots. slots ≡ found_or slot []) }
{
    let mut slots = Items::new(alloc);
    if let Some(slot) = slot {
        slots.push(slot)?;
    }
    Ok(slots)
}
