//! The rows of a job that is placed: its own, its layers', and its frames' slots.

ghost use Rattle.std.specs.Prelude.{◌≡◌, ◌≤◌, ◌++◌, ◌∷◌, [], length, slice_get, IfOk, OnOk};
ghost use Rattle.farm_types.specs.Jobs.{frames_from, frames_in, frames_of, job_row, layer_row, limit_in, new_frame};
ghost use Rattle.farm_types.specs.Step.{lists_of};
ghost use Rattle.farm_types.specs.declared.limits.TheConstants.{MOST_FRAMES, MOST_LAYERS};
ghost use Rattle.job_book.specs.Lowest.{lowest_free, slot_for};
ghost use Rattle.farm_changes.specs.RowChanges.{Places, frame_put, frames_put, job_put, layers_put, left_put, rows_put};

use farm_books::Books;
use farm_rows::{FarmRow, FrameRow, RowChange, RowKey};
use farm_types::{
    Frame, FrameState, JobNo, JobRow, JobSpec, JobState, LayerRow, LayerSpec, LimitNo, Slot,
    SlotRow, Version,
};
use job_book::Placing;
use std::alloc::{AllocError, Global};

/// A job is placed, and the finished job of that number leaves.
pub(crate) fn put_job(
    alloc: Global,
    books: &Books,
    left: Option<JobNo>,
    placing: &Placing,
    spec: &JobSpec,
    into: &mut Vec<RowChange>,
) -> Result<(), AllocError>
    requires { Places (lists_of books.now.farm) placing.now spec.now }
    ensures { OnOk result (into.new.items ≡ into.old.items ++ job_put (lists_of books.now.farm) left placing.now.show placing.now.limits spec.now) }
{
    into.reserve(rows_about(placing, spec))?;
    put_left(left, into)?;
    let row = job_row(alloc, placing, spec)?;
    into.push(RowChange::Put(FarmRow::Job(row)))?;
    let limits = placing.limits.as_slice();
    put_layers(alloc, placing.job, limits, spec.layers.as_slice(), into)?;
    put_frames(
        books.slots(),
        placing.slots.as_slice(),
        placing.job,
        spec.layers.as_slice(),
        into,
    )
}

// At least as many rows as there will be, with the farm's own and some that may follow.
fn rows_about(placing: &Placing, spec: &JobSpec) -> usize {
    let frames = placing.slots.len();
    frames.saturating_add(spec.layers.len()).saturating_add(8)
}

// A finished job leaves.
fn put_left(left: Option<JobNo>, into: &mut Vec<RowChange>) -> Result<(), AllocError>
    ensures { OnOk result (into.new.items ≡ into.old.items ++ left_put left) }
{
    let Some(job) = left else {
        return Ok(());
    };
    into.push(RowChange::Delete {
        key: RowKey::Job { job },
    })?;
    Ok(())
}

// The row of a job that is placed.
fn job_row(alloc: Global, placing: &Placing, spec: &JobSpec) -> Result<JobRow, AllocError>
    requires { placing.now.frames ≡ frames_in spec.now.layers }
    ensures { IfOk result (λ row. row ≡ job_row placing.now.job placing.now.show spec.now) }
{
    Ok(JobRow {
        job: placing.job,
        name: spec.name.copy(alloc)?,
        show: placing.show,
        facility: spec.facility.copy(alloc)?,
        shot: spec.shot.copy(alloc)?,
        user: spec.user.copy(alloc)?,
        priority: spec.priority,
        max_retries: spec.max_retries,
        auto_eat: spec.auto_eat,
        paused: spec.paused,
        state: JobState::Pending,
        frames: placing.frames,
        finish: 0,
        eaten: 0,
        succeeded: 0,
    })
}

// The rows of a job's layers, with these limits.
fn put_layers(
    alloc: Global,
    job: JobNo,
    limits: &[Option<LimitNo>],
    layers: &[LayerSpec],
    into: &mut Vec<RowChange>,
) -> Result<(), AllocError>
    requires { length layers.now ≤ MOST_LAYERS }
    ensures { OnOk result (into.new.items ≡ into.old.items ++ layers_put job limits.now 0 layers.now) }
{
    for (place, layer) in layers.iter().enumerate() {
        let limit = limit_in(limits, place);
        let row = layer_row(alloc, job, place as u32, limit, layer)?;
        into.push(RowChange::Put(FarmRow::Layer(row)))?;
    }
    Ok(())
}

// The limit of the layer at a place, none past the last.
fn limit_in(limits: &[Option<LimitNo>], place: usize) -> Option<LimitNo>
    ensures { result ≡ limit_in limits.now place }
{
    match limits.get(place) {
        None => None,
        Some(limit) => *limit,
    }
}

// The row of a layer.
fn layer_row(
    alloc: Global,
    job: JobNo,
    place: u32,
    limit: Option<LimitNo>,
    layer: &LayerSpec,
) -> Result<LayerRow, AllocError>
    ensures { IfOk result (λ row. row ≡ layer_row job place limit layer.now) }
{
    Ok(LayerRow {
        job,
        place,
        name: layer.name.copy(alloc)?,
        range: layer.range.copy(alloc)?,
        command: layer.command.copy(alloc)?,
        cores: layer.cores,
        memory: layer.memory,
        tags: layer.tags.copy(alloc)?,
        limit,
    })
}

// The frames of a job's layers in these slots, the lowest free ones.
fn put_frames(
    slots: &[SlotRow],
    places: &[Slot],
    job: JobNo,
    layers: &[LayerSpec],
    into: &mut Vec<RowChange>,
) -> Result<(), AllocError>
    requires places { places.now ≡ lowest_free 0 slots.now (frames_in layers.now) }
    requires layer_count { length layers.now ≤ MOST_LAYERS }
    requires frame_count { frames_in layers.now ≤ MOST_FRAMES }
    ensures { OnOk result (into.new.items ≡ into.old.items ++ frames_put 0 slots.now (frames_of job 0 layers.now)) }
{
    let mut done = 0;
    for (place, layer) in layers.iter().enumerate() {
        let end = done + layer.numbers.len();
        put_layer(
            slots,
            &places[done..end],
            job,
            place as u32,
            layer.numbers.as_slice(),
            into,
        )?;
        done = end;
    }
    Ok(())
}

// The frames of a layer's numbers in these slots.
fn put_layer(
    slots: &[SlotRow],
    places: &[Slot],
    job: JobNo,
    layer: u32,
    numbers: &[i32],
    into: &mut Vec<RowChange>,
) -> Result<(), AllocError>
    requires count { length places.now ≡ length numbers.now }
    requires frame_count { length numbers.now ≤ MOST_FRAMES }
    ensures { OnOk result (into.new.items ≡ into.old.items ++ rows_put slots.now places.now (frames_from job layer 0 numbers.now)) }
{
    for (position, number) in numbers.iter().enumerate() {
        let frame = new_frame(job, layer, position as u32, *number);
        put_frame(slots, places[position], frame, into)?;
    }
    Ok(())
}

// A frame in a slot.
fn put_frame(
    slots: &[SlotRow],
    slot: Slot,
    frame: Frame,
    into: &mut Vec<RowChange>,
) -> Result<(), AllocError>
    ensures { OnOk result (into.new.items ≡ into.old.items ++ frame_put slot (slot_for frame (slice_get slots.now slot)) ∷ []) }
{
    let row = slot_for(slots, slot.0 as usize, frame);
    let row = FrameRow::of_slot(slot, &row);
    into.push(RowChange::Put(FarmRow::Frame(row)))?;
    Ok(())
}

// The row of the slot at a place, with that frame.
fn slot_for(slots: &[SlotRow], place: usize, frame: Frame) -> SlotRow
    ensures { result ≡ slot_for frame (slice_get slots.now place) }
{
    match slots.get(place) {
        None => SlotRow {
            version: Version(0),
            frame: Some(frame),
            proc: None,
        },
        Some(row) => SlotRow {
            version: row.version,
            frame: Some(frame),
            proc: row.proc,
        },
    }
}

// A frame that waits.
fn new_frame(job: JobNo, layer: u32, position: u32, number: i32) -> Frame
    ensures { result ≡ new_frame job layer position number }
{
    Frame {
        job,
        layer,
        position,
        number,
        retries: 0,
        state: FrameState::Waiting,
    }
}
