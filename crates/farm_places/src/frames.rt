//! Frames that are named by job, layer and number.

ghost use Rattle.std.specs.Prelude.{◌≡◌, ℕ, true, slice_get, IfOk, Some};
ghost use Rattle.farm_types.specs.Depends.{layer_shape};
ghost use Rattle.farm_types.specs.Groups.{slots_of_part};
ghost use Rattle.farm_types.specs.Kept.{KeepsRows};
ghost use Rattle.farm_types.specs.Operators.{first_of};
ghost use Rattle.farm_types.specs.Step.{lists_of};
ghost use Rattle.job_book.specs.Book.{has_frame};
ghost use Rattle.farm_places.specs.Frames.{FindsFrame};
ghost use Rattle.farm_places.specs.Shapes.{IsKeptBook};

use crate::numbered::slot_of_number;
use crate::refused::{missing, unknown_frame};
use crate::shapes::layer_named;
use farm_books::Books;
use farm_types::{FarmFault, FramePlace, LayerRow, Slot};
use job_book::Jobs;
use std::alloc::Global;

/// The slot of the frame that is named, of a pending job, or that the job, its layer or the frame isn't there.
pub fn find_frame(alloc: Global, books: &Books, place: &FramePlace) -> Result<Slot, FarmFault>
    requires { KeepsRows books.now.farm }
    ensures found { FindsFrame books.now.farm place.now result }
    ensures frame { IfOk result (λ slot. has_frame (lists_of books.now.farm) slot ≡ true) }
{
    let jobs = books.jobs();
    let Some(job) = jobs.pending(place.job.as_str()) else {
        return Err(missing(alloc, jobs, &place.job));
    };
    let Some(layer) = layer_named(jobs.layers_of(job), &place.layer) else {
        return Err(FarmFault::unknown(alloc, &place.layer));
    };
    let Some(slot) = slot_in_layer(jobs, layer, place.frame) else {
        return Err(unknown_frame(alloc, place.frame, &layer.name));
    };
    Ok(slot)
}

// The slot of the frame of that number in a layer.
fn slot_in_layer(jobs: &Jobs, layer: &LayerRow, number: i32) -> Option<Slot>
    requires kept { IsKeptBook jobs.now }
    requires there { (n : ℕ) × (slice_get jobs.now.layers n ≡ Some layer.now) }
    ensures { result ≡ first_of (slots_of_part (layer_shape jobs.now.slots layer.now) (Some number)) }
{
    slot_of_number(jobs, jobs.layer_slots(layer.job, layer.place), number)
}
