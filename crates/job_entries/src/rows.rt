//! Copies of the rows of all jobs and layers, in their order, and the numbers of all jobs.

ghost use Rattle.std.specs.Prelude.{◌≡◌, ◌++◌, flat_map, map, IfOk, OnOk};
ghost use Rattle.job_entries.specs.Entries.{held, layers_held, row_of};

use crate::entries::{Entries, Place};
use farm_types::{JobNo, JobRow, LayerRow};
use std::alloc::{AllocError, Global};

impl Entries {
    /// Copies of the jobs' rows, in the order of their numbers.
    pub fn job_rows(&self, alloc: Global) -> Result<Vec<JobRow>, AllocError>
        ensures { IfOk result (λ rows. rows.items ≡ self.now.rows) }
    {
        jobs_of(alloc, self.places.as_slice())
    }

    /// The jobs' numbers, in order.
    pub fn numbers(&self, alloc: Global) -> Result<Vec<JobNo>, AllocError>
        ensures { IfOk result (λ numbers. numbers.items ≡ map (λ j. j.job) self.now.rows) }
    {
        numbers_of(alloc, self.places.as_slice())
    }

    /// Copies of the layers' rows, in the order of their jobs, those of a job by their places.
    pub fn layer_rows(&self, alloc: Global) -> Result<Vec<LayerRow>, AllocError>
        ensures { IfOk result (λ rows. rows.items ≡ self.now.layers) }
    {
        layers_of(alloc, self.places.as_slice())
    }
}

// Copies of the rows of the jobs at these places.
fn jobs_of(alloc: Global, places: &[Place]) -> Result<Vec<JobRow>, AllocError>
    ensures { IfOk result (λ rows. rows.items ≡ map row_of (held places.now)) }
{
    let mut rows = Vec::new(alloc);
    for place in places {
        if let Some(entry) = &place.held {
            rows.push(entry.row().copy(alloc)?)?;
        }
    }
    Ok(rows)
}

// The numbers of the jobs at these places.
fn numbers_of(alloc: Global, places: &[Place]) -> Result<Vec<JobNo>, AllocError>
    ensures { IfOk result (λ numbers. numbers.items ≡ map (λ j. j.job) (map row_of (held places.now))) }
{
    let mut numbers = Vec::new(alloc);
    for place in places {
        if let Some(entry) = &place.held {
            numbers.push(entry.row().job)?;
        }
    }
    Ok(numbers)
}

// Copies of the layers of the jobs at these places.
fn layers_of(alloc: Global, places: &[Place]) -> Result<Vec<LayerRow>, AllocError>
    ensures { IfOk result (λ rows. rows.items ≡ flat_map layers_held (held places.now)) }
{
    let mut rows = Vec::new(alloc);
    for place in places {
        if let Some(entry) = &place.held {
            copy_layers(alloc, entry.layers(), &mut rows)?;
        }
    }
    Ok(rows)
}

// Copies of these layers go behind the others.
fn copy_layers(
    alloc: Global,
    layers: &[LayerRow],
    rows: &mut Vec<LayerRow>,
) -> Result<(), AllocError>
    ensures { OnOk result (rows.new.items ≡ rows.old.items ++ layers.now) }
{
    for layer in layers {
        rows.push(layer.copy(alloc)?)?;
    }
    Ok(())
}
