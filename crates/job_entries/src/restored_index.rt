//! Where the frames of layers stand, as slots that are given say.

ghost use Rattle.std.specs.Prelude.{◌≡◌, ◌<◌, ◌≤◌, ◌+◌, ◌*◌, length, map, true, IfOk};
ghost use Rattle.std.specs.List.{list_all};
ghost use Rattle.farm_types.specs.Booking.{is_waiting};
ghost use Rattle.farm_types.specs.Farm.{changed_at};
ghost use Rattle.farm_types.specs.Kept.{is_formed_layer, is_kept_slot};
ghost use Rattle.farm_types.specs.Ranges.{is_range_text, range_numbers};
ghost use Rattle.farm_types.specs.Rising.{IsRising, layer_key};
ghost use Rattle.farm_types.specs.declared.limits.TheConstants.{MOST_LAYERS, SLOT_LIMIT};
ghost use Rattle.job_index.specs.declared.ready_jobs.TheConstants.{JOB_NUMBERS};
ghost use Rattle.job_entries.specs.Entries.{layer_position};
ghost use Rattle.job_entries.specs.Restored.{noted_frame, noted_from, range_length, unplaced};
ghost use Rattle.job_index.specs.Places.{with_slot};

use farm_types::{Frame, JobNo, LayerRow, MOST_LAYERS, Slot, SlotRow, Text};
use frame_range::parse_set;
use job_index::LayerFrames;
use std::alloc::{AllocError, Global};

/// Where the frames of each of these layers stand.
pub fn index_of(
    alloc: Global,
    layers: &[LayerRow],
    slots: &[SlotRow],
) -> Result<Vec<LayerFrames>, AllocError>
    requires rise { IsRising layer_key 0 layers.now (MOST_LAYERS * JOB_NUMBERS) }
    requires formed { list_all is_formed_layer layers.now ≡ true }
    requires kept { list_all (is_kept_slot layers.now) slots.now ≡ true }
    requires slot_count { length slots.now ≤ SLOT_LIMIT }
    ensures { IfOk result (λ index. index.items ≡ noted_from 0 layers.now slots.now (map unplaced layers.now)) }
{
    let mut index = unplaced_layers(alloc, layers)?;
    for (place, row) in slots.iter().enumerate() {
        note_slot(&mut index, layers, Slot(place as u32), row);
    }
    Ok(index)
}

// The layers, whose frames have no slots yet.
fn unplaced_layers(alloc: Global, layers: &[LayerRow]) -> Result<Vec<LayerFrames>, AllocError>
    requires { list_all is_formed_layer layers.now ≡ true }
    ensures { IfOk result (λ index. index.items ≡ map unplaced layers.now) }
{
    let mut index = Vec::new(alloc);
    for layer in layers {
        index.push(unplaced(alloc, layer)?)?;
    }
    Ok(index)
}

// A layer whose frames have no slots yet.
fn unplaced(alloc: Global, layer: &LayerRow) -> Result<LayerFrames, AllocError>
    requires { is_formed_layer layer.now ≡ true }
    ensures { IfOk result (λ frames. frames ≡ unplaced layer.now) }
{
    let count = count_numbers(alloc, &layer.range)?;
    LayerFrames::make(alloc, count)
}

// How many numbers the range says. Its text is that of a set, so that nothing but memory can be wanting.
fn count_numbers(alloc: Global, range: &Text) -> Result<usize, AllocError>
    requires { is_range_text range.now ≡ true }
    ensures { IfOk result (λ count. count ≡ length (range_numbers range.now)) }
{
    match parse_set(alloc, range.as_str()) {
        Ok(set) => Ok(set.numbers().len()),
        Err(_) => Err(AllocError),
    }
}

// The slot's frame is noted at its layer, where the slot has one.
fn note_slot(index: &mut Vec<LayerFrames>, layers: &[LayerRow], slot: Slot, row: &SlotRow)
    requires rise { IsRising layer_key 0 layers.now (MOST_LAYERS * JOB_NUMBERS) }
    requires formed { list_all is_formed_layer layers.now ≡ true }
    requires kept { is_kept_slot layers.now row.now ≡ true }
    ensures { index.new.items ≡ noted_frame slot layers.now row.now.frame index.old.items }
{
    let Some(frame) = &row.frame else {
        return;
    };
    let place = layer_place(layers, frame.job, frame.layer);
    note_at(index, place, slot, frame);
}

// The frame is noted at the layer at a place.
fn note_at(index: &mut Vec<LayerFrames>, place: usize, slot: Slot, frame: &Frame)
    ensures { index.new.items ≡ changed_at index.old.items place (with_slot frame.now.position slot (is_waiting frame.now.state)) }
{
    if place < index.len() {
        index[place].note(frame.position, slot, frame.state.is_waiting());
    }
}

// The place among these of the layer at a place of a job, and how many there are where it isn't one of them.
fn layer_place(layers: &[LayerRow], job: JobNo, place: u32) -> usize
    requires rise { IsRising layer_key 0 layers.now (MOST_LAYERS * JOB_NUMBERS) }
    requires formed { list_all is_formed_layer layers.now ≡ true }
    requires within { place < MOST_LAYERS }
    ensures { result ≡ layer_position job place layers.now }
{
    let key = key_of(job, place);
    layers
        .binary_search_by_key(&key, |layer| key_of(layer.job, layer.place))
        .unwrap_or(layers.len())
}

// The key by which layers are in order.
fn key_of(job: JobNo, place: u32) -> u64
    ensures { result ≡ MOST_LAYERS * job + place }
{
    u64::from(MOST_LAYERS) * u64::from(job.0) + u64::from(place)
}
