//! The shapes of jobs: the frames of their layers, in range order.

ghost use Rattle.std.specs.Prelude.{◌≡◌, bytes_eq, find, map, option_copied, ℕ, Some, slice_get, IfOk};
ghost use Rattle.farm_types.specs.Depends.{layer_shape, shape_in};
ghost use Rattle.farm_places.specs.Ends.{ShowsPart, number_at};
ghost use Rattle.farm_places.specs.Shapes.{AreLayers, IsKeptBook};

use farm_types::{Items, JobNo, LayerRow, LayerShape, Shape, Slot, Text};
use job_book::Jobs;
use std::alloc::{AllocError, Global};

/// Of the job's shape what an end names: the layer of that name, if it is there, or all layers.
pub fn part_shape(
    alloc: Global,
    jobs: &Jobs,
    job: JobNo,
    layer: &Option<Text>,
) -> Result<Shape, AllocError>
    requires { IsKeptBook jobs.now }
    ensures { IfOk result (λ shape. ShowsPart (shape_in jobs.now.layers jobs.now.slots job) shape layer.now) }
{
    match layer {
        None => whole_shape(alloc, jobs, job),
        Some(name) => named_shape(alloc, jobs, job, name),
    }
}

// The shape of a job.
fn whole_shape(alloc: Global, jobs: &Jobs, job: JobNo) -> Result<Shape, AllocError>
    requires { IsKeptBook jobs.now }
    ensures { IfOk result (λ shape. shape ≡ shape_in jobs.now.layers jobs.now.slots job) }
{
    let layers = layer_shapes(alloc, jobs, jobs.layers_of(job))?;
    Ok(Shape { layers })
}

// The shape of a job's layer of that name alone, if it is there.
fn named_shape(alloc: Global, jobs: &Jobs, job: JobNo, name: &Text) -> Result<Shape, AllocError>
    requires { IsKeptBook jobs.now }
    ensures { IfOk result (λ shape. ShowsPart (shape_in jobs.now.layers jobs.now.slots job) shape (Some name.now)) }
{
    let mut layers = Items::new(alloc);
    let Some(layer) = layer_named(jobs.layers_of(job), name) else {
        return Ok(Shape { layers });
    };
    layers.push(layer_shape(alloc, jobs, layer)?)?;
    Ok(Shape { layers })
}

/// The first layer of that name.
pub(crate) fn layer_named<'a>(layers: &'a [LayerRow], name: &Text) -> Option<&'a LayerRow>
    ensures { option_copied result ≡ find (λ layer. bytes_eq layer.name name.now) layers.now }
{
    layers.iter().find(|layer| layer.name.is(name.as_str()))
}

// The shapes of layers.
fn layer_shapes(
    alloc: Global,
    jobs: &Jobs,
    layers: &[LayerRow],
) -> Result<Items<LayerShape>, AllocError>
    requires kept { IsKeptBook jobs.now }
    requires layers { AreLayers jobs.now layers.now }
    ensures { IfOk result (λ shapes. shapes ≡ map (layer_shape jobs.now.slots) layers.now) }
{
    let mut shapes = Items::new(alloc);
    for layer in layers {
        shapes.push(layer_shape(alloc, jobs, layer)?)?;
    }
    Ok(shapes)
}

// The shape of a layer. Its numbers are those of its frames, which is quicker than to read its range again.
fn layer_shape(alloc: Global, jobs: &Jobs, layer: &LayerRow) -> Result<LayerShape, AllocError>
    requires kept { IsKeptBook jobs.now }
    requires there { (n : ℕ) × (slice_get jobs.now.layers n ≡ Some layer.now) }
    ensures { IfOk result (λ shape. shape ≡ layer_shape jobs.now.slots layer.now) }
{
    let slots = jobs.layer_slots(layer.job, layer.place);
    let name = layer.name.copy(alloc)?;
    let numbers = numbers_of(alloc, jobs, slots)?;
    let slots = Items::from_vec(Vec::from_slice(alloc, slots)?);
    Ok(LayerShape {
        name,
        numbers,
        slots,
    })
}

// The numbers of the frames in slots.
fn numbers_of(alloc: Global, jobs: &Jobs, slots: &[Slot]) -> Result<Items<i32>, AllocError>
    ensures { IfOk result (λ numbers. numbers ≡ map (number_at jobs.now.slots) slots.now) }
{
    let mut numbers = Items::new(alloc);
    for slot in slots {
        numbers.push(number_at(jobs, *slot))?;
    }
    Ok(numbers)
}

/// The number of the frame in a slot, and 0 where it has none.
pub(crate) fn number_at(jobs: &Jobs, slot: Slot) -> i32
    ensures { result ≡ number_at jobs.now.slots slot }
{
    let Some(row) = jobs.row(slot) else {
        return 0;
    };
    let Some(frame) = &row.frame else {
        return 0;
    };
    frame.number
}
