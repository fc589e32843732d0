//! A job that is to be placed: the number that it gets, and its frames in the slots that they will take.

ghost use Rattle.std.specs.Prelude.{◌≡◌, length, IfOk};
ghost use Rattle.farm_depends.specs.Placed.{CanPlace, EndsIn, IsOwn, name_in, number_among, own_shapes};

use command_text::frame_name;
use farm_books::Books;
use farm_places::{check_part, end_in};
use farm_types::{
    DependEnd, FarmFault, Items, JobNo, JobSpec, LayerShape, LayerSpec, Place, Shape, Slot, Text,
};
use std::alloc::{AllocError, Global};

/// The number that a job gets, and its shape once it is placed.
#[derive(Debug, Drop)]
pub(crate) struct OwnJob {
    pub(crate) job: JobNo,
    pub(crate) shape: Shape,
}

/// The job as it will be placed.
pub(crate) fn own_job(alloc: Global, books: &Books, spec: &JobSpec) -> Result<OwnJob, AllocError>
    requires { CanPlace books.now.farm spec.now }
    ensures { IfOk result (λ own. IsOwn books.now.farm spec.now own) }
{
    let number = books.jobs().next_number();
    let places = books.jobs().places_for(alloc, &spec.layers)?;
    let layers = own_shapes(alloc, spec.layers.as_slice(), places.as_slice())?;
    Ok(OwnJob {
        job: JobNo(number as u32),
        shape: Shape { layers },
    })
}

// The shapes of layers whose frames go into these slots.
fn own_shapes(
    alloc: Global,
    layers: &[LayerSpec],
    places: &[Items<Slot>],
) -> Result<Items<LayerShape>, AllocError>
    requires { length places.now ≡ length layers.now }
    ensures { IfOk result (λ shapes. shapes ≡ own_shapes layers.now places.now) }
{
    let mut shapes = Items::new(alloc);
    for (place, layer) in layers.iter().enumerate() {
        let shape = own_shape(alloc, layer, &places[place])?;
        shapes.push(shape)?;
    }
    Ok(shapes)
}

// The shape of a layer whose frames go into these slots.
fn own_shape(
    alloc: Global,
    layer: &LayerSpec,
    slots: &Items<Slot>,
) -> Result<LayerShape, AllocError>
    ensures { IfOk result (λ shape. shape ≡ record { name = layer.now.name; numbers = layer.now.numbers; slots = slots.now }) }
{
    Ok(LayerShape {
        name: layer.name.copy(alloc)?,
        numbers: layer.numbers.copy(alloc)?,
        slots: slots.copy(alloc)?,
    })
}

/// An end in the job, or that its layer or its frame isn't there.
pub(crate) fn own_end(alloc: Global, own: &OwnJob, place: &Place) -> Result<DependEnd, FarmFault>
    ensures { EndsIn own.now place.now result }
{
    check_part(alloc, &own.shape, place)?;
    let end = end_in(alloc, own.job, place)?;
    Ok(end)
}

/// The name of the job's frame in a slot.
pub(crate) fn name_in(alloc: Global, layers: &[LayerShape], slot: Slot) -> Result<Text, AllocError>
    ensures { IfOk result (λ name. name ≡ name_in layers.now slot) }
{
    for layer in layers {
        if let Some(number) = number_among(layer.numbers.as_slice(), layer.slots.as_slice(), slot) {
            return frame_name(alloc, number, layer.name.as_str());
        }
    }
    Text::from_str(alloc, "")
}

// The number of the frame in a slot, where it is among these.
fn number_among(numbers: &[i32], slots: &[Slot], slot: Slot) -> Option<i32>
    ensures { result ≡ number_among slot numbers.now slots.now }
{
    for (place, other) in slots.iter().enumerate() {
        if *other == slot {
            return numbers.get(place).copied();
        }
    }
    None
}
