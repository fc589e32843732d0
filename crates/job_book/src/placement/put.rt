//! Frames into free slots that were found.

ghost use Rattle.std.specs.Prelude.{◌≡◌, ◌≤◌, ◌<◌, ◌+◌, length, map, slice_get};
ghost use Rattle.std.specs.List.{concat};
ghost use Rattle.std.specs.Vec.{vec_capacity};
ghost use Rattle.farm_types.specs.Jobs.{is_free, new_frame, fresh_slot, slot_with, frames_from, frames_in, frames_of};
ghost use Rattle.job_book.specs.Layers.{count_of, fresh_places, marks_of, slots_of};
ghost use Rattle.job_book.specs.Lowest.{AreNext, behind, filled, with_frame};
ghost use Rattle.farm_types.specs.declared.limits.TheConstants.{MOST_FRAMES, MOST_LAYERS, SLOT_LIMIT};

use crate::change::set_row;
use farm_types::{Frame, FrameState, JobNo, LAST_VERSION, LayerSpec, Slot, SlotRow, Version};
use job_index::LayerFrames;

/// Puts the frames of a job's layers into these slots, layer by layer, and notes them. It takes no memory.
pub(crate) fn put_layers(
    slots: &mut Vec<SlotRow>,
    places: &[Slot],
    job: JobNo,
    layers: &[LayerSpec],
    index: &mut Vec<LayerFrames>,
)
    requires capacity { SLOT_LIMIT ≤ vec_capacity slots.old }
    requires next { AreNext places.now (length slots.old.items) }
    requires count { length places.now ≡ frames_in layers.now }
    requires layer_count { length layers.now ≤ MOST_LAYERS }
    requires frame_count { frames_in layers.now ≤ MOST_FRAMES }
    requires index { index.old.items ≡ map fresh_places layers.now }
    ensures slots { slots.new.items ≡ filled places.now (frames_of job 0 layers.now) slots.old.items }
    ensures places { concat (map slots_of index.new.items) ≡ places.now }
    ensures lengths { map count_of index.new.items ≡ map (λ l. length l.numbers) layers.now }
    ensures marks { map marks_of index.new.items ≡ map marks_of index.old.items }
    ensures capacity { vec_capacity slots.new ≡ vec_capacity slots.old }
{
    let mut done = 0;
    for (place, layer) in layers.iter().enumerate() {
        let end = done + layer.numbers.len();
        put_layer(
            slots,
            &places[done..end],
            job,
            place as u32,
            layer.numbers.as_slice(),
            &mut index[place],
        );
        done = end;
    }
}

// Puts the frames of a layer's numbers into these slots, and notes them.
fn put_layer(
    slots: &mut Vec<SlotRow>,
    places: &[Slot],
    job: JobNo,
    layer: u32,
    numbers: &[i32],
    frames: &mut LayerFrames,
)
    requires capacity { SLOT_LIMIT ≤ vec_capacity slots.old }
    requires next { AreNext places.now (length slots.old.items) }
    requires count { length places.now ≡ length numbers.now }
    requires frame_count { length numbers.now ≤ MOST_FRAMES }
    requires long { length frames.old.slots ≡ length numbers.now }
    ensures slots { slots.new.items ≡ filled places.now (frames_from job layer 0 numbers.now) slots.old.items }
    ensures places { frames.new.slots ≡ places.now }
    ensures marks { frames.new.waiting ≡ frames.old.waiting }
    ensures capacity { vec_capacity slots.new ≡ vec_capacity slots.old }
{
    for (position, number) in numbers.iter().enumerate() {
        let slot = places[position];
        put(slots, slot, new_frame(job, layer, position as u32, *number));
        frames.set(position, slot);
    }
}

// Puts a frame into a slot.
fn put(slots: &mut Vec<SlotRow>, slot: Slot, frame: Frame)
    requires capacity { SLOT_LIMIT ≤ vec_capacity slots.old }
    requires within { slot ≤ length slots.old.items }
    requires limit { slot < SLOT_LIMIT }
    ensures slots { slots.new.items ≡ with_frame slot frame slots.old.items }
    ensures capacity { vec_capacity slots.new ≡ vec_capacity slots.old }
{
    let Some(row) = row_at(slots.as_slice(), slot.0 as usize) else {
        slots.push_reserved(fresh_slot(frame));
        return;
    };
    set_row(slots, slot, slot_with(frame, &row));
}

/// The place behind the last of these slots.
pub(crate) fn behind_last(places: &[Slot]) -> u32
    requires some { 0 < length places.now }
    requires within { behind 0 places.now ≤ SLOT_LIMIT }
    ensures { result ≡ behind 0 places.now }
{
    last_of(places).0 + 1
}

// The last of these slots.
fn last_of(places: &[Slot]) -> Slot
    requires { 0 < length places.now }
    ensures { result + 1 ≡ behind 0 places.now }
{
    places[places.len() - 1]
}

/// What stands at a place.
pub(crate) fn row_at(slots: &[SlotRow], place: usize) -> Option<SlotRow>
    ensures { result ≡ slice_get slots.now place }
{
    slots.get(place).copied()
}

/// Whether the slot has no frame and may still rise in version.
pub(crate) fn is_free(row: &SlotRow) -> bool
    ensures { result ≡ is_free row.now }
{
    row.frame.is_none() && row.version.0 < LAST_VERSION
}

// A frame that waits.
fn new_frame(job: JobNo, layer: u32, position: u32, number: i32) -> Frame
    ensures { result ≡ new_frame job layer position number }
{
    Frame {
        job,
        layer,
        position,
        number,
        retries: 0,
        state: FrameState::Waiting,
    }
}

// The slot with that frame, at its version.
fn slot_with(frame: Frame, row: &SlotRow) -> SlotRow
    ensures { result ≡ slot_with frame row.now }
{
    SlotRow {
        version: row.version,
        frame: Some(frame),
        proc: row.proc,
    }
}

// A slot that was never used, with that frame.
fn fresh_slot(frame: Frame) -> SlotRow
    ensures { result ≡ fresh_slot frame }
{
    SlotRow {
        version: Version(0),
        frame: Some(frame),
        proc: None,
    }
}
