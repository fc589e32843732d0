//! The ends of depends, by names.

ghost use Rattle.std.specs.Prelude.{◌≡◌, find, option_copied, IfOk};
ghost use Rattle.std.specs.List.{list_any};
ghost use Rattle.std.specs.Ordering.{int_eq};
ghost use Rattle.farm_types.specs.Kept.{KeepsRows};
ghost use Rattle.farm_types.specs.Faults.{Refuses};
ghost use Rattle.farm_places.specs.Ends.{FindsEnd, frame_refusal_in, is_called, shape_refusal};

use crate::refused::{missing, unknown_frame};
use crate::shapes::part_shape;
use farm_books::Books;
use farm_types::{DependEnd, FarmFault, JobNo, LayerShape, Place, Shape, Text};
use std::alloc::{AllocError, Global};

/// The end that a place names, with a shape of its job that shows what is named.
#[derive(Debug, Drop)]
pub struct FoundEnd {
    pub end: DependEnd,
    pub shape: Shape,
}

/// The end that a place names, or that its job, its layer or its frame isn't there.
pub fn find_end(alloc: Global, books: &Books, place: &Place) -> Result<FoundEnd, FarmFault>
    requires { KeepsRows books.now.farm }
    ensures { FindsEnd books.now.farm place.now result }
{
    let jobs = books.jobs();
    let Some(job) = jobs.pending(place.job.as_str()) else {
        return Err(missing(alloc, jobs, &place.job));
    };
    let shape = part_shape(alloc, jobs, job, &place.layer)?;
    check_part(alloc, &shape, place)?;
    let end = end_in(alloc, job, place)?;
    Ok(FoundEnd { end, shape })
}

/// Refuses an end whose layer or frame isn't in the job's shape.
pub fn check_part(alloc: Global, shape: &Shape, place: &Place) -> Result<(), FarmFault>
    ensures { Refuses (shape_refusal shape.now place.now.layer place.now.frame) result }
{
    let Some(name) = &place.layer else {
        return Ok(());
    };
    let Some(layer) = layer_called(shape.layers.as_slice(), name) else {
        return Err(FarmFault::unknown(alloc, name));
    };
    check_frame(alloc, layer, place.frame)
}

// Refuses a frame that isn't in the layer, where one is named.
fn check_frame(alloc: Global, layer: &LayerShape, frame: Option<i32>) -> Result<(), FarmFault>
    ensures { Refuses (frame_refusal_in layer.now frame) result }
{
    let Some(number) = frame else {
        return Ok(());
    };
    if has_number(layer.numbers.as_slice(), number) {
        return Ok(());
    }
    Err(unknown_frame(alloc, number, &layer.name))
}

// Whether the number is among these.
fn has_number(numbers: &[i32], number: i32) -> bool
    ensures { result ≡ list_any (int_eq number) numbers.now }
{
    numbers.iter().any(|other| number == *other)
}

// The first layer of that name.
fn layer_called<'a>(layers: &'a [LayerShape], name: &Text) -> Option<&'a LayerShape>
    ensures { option_copied result ≡ find (is_called name.now) layers.now }
{
    layers.iter().find(|layer| layer.name.is(name.as_str()))
}

/// The end in a job of that number.
pub fn end_in(alloc: Global, job: JobNo, place: &Place) -> Result<DependEnd, AllocError>
    ensures { IfOk result (λ end. end ≡ record { job = job; layer = place.now.layer; frame = place.now.frame }) }
{
    Ok(DependEnd {
        job,
        layer: copy_of_name(alloc, &place.layer)?,
        frame: place.frame,
    })
}

// An equal name, or none.
fn copy_of_name(alloc: Global, name: &Option<Text>) -> Result<Option<Text>, AllocError>
    ensures { IfOk result (λ copy. copy ≡ name.now) }
{
    match name {
        None => Ok(None),
        Some(name) => Ok(Some(name.copy(alloc)?)),
    }
}
