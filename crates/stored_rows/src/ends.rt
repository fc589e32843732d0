//! Which row is at fault after the last one.

ghost use Rattle.std.specs.Prelude.{◌≡◌, ◌+◌, ◌&&◌, not, filter, length, nat_le, option_map, slice_get};
ghost use Rattle.std.specs.List.{position_or_len};
ghost use Rattle.farm_types.specs.Finish.{finishes};
ghost use Rattle.farm_types.specs.Kept.{has_its_limit, is_pending_job};
ghost use Rattle.farm_types.specs.Rising.{layer_key};
ghost use Rattle.farm_rows.specs.Recovery.{first_job, first_layer, head_ends, lacks_frames, lacks_limit, lacks_slots};
ghost use Rattle.row_index.specs.Index.{lacks_any};
ghost use Rattle.stored_rows.specs.Known.{first_ending};
ghost use Rattle.stored_rows.specs.Told.{early_fault};

use crate::stored_rows::StoredRows;
use farm_types::{JobRow, LayerRow};
use row_index::{KnownLayer, layer_key};

impl StoredRows {
    /// The kind and the id of the first row at fault after the last one, but for the faults of depends: a layer whose limit isn't there, the farm's
    /// own row, a job whose layers aren't all its frames, a layer that lacks a slot, a pending job of which no frame is left.
    pub fn end_fault(&self) -> Option<(u8, u64)>
        ensures { result ≡ early_fault self.now.farm }
    {
        if let Some(layer) = self.layer_lacking_limit() {
            return Some((7, layer));
        }
        if !self.has_numbers_left() {
            return Some((1, 0));
        }
        if let Some(job) = self.job_lacking_frames() {
            return Some((6, job));
        }
        if let Some(layer) = self.layer_lacking_slots() {
            return Some((7, layer));
        }
        match self.job_finishing() {
            None => None,
            Some(job) => Some((6, job)),
        }
    }

    // The first layer whose limit isn't there.
    fn layer_lacking_limit(&self) -> Option<u64>
        ensures { option_map (λ layer. (7, layer)) result ≡ first_layer (lacks_limit self.now.farm) self.now.farm.layers }
    {
        first_unlimited(self.lists.limits.len(), self.lists.layers.as_slice())
    }

    // Whether no more jobs can finish than were numbered.
    fn has_numbers_left(&self) -> bool
        ensures { result ≡ nat_le (self.now.farm.next_finish + length (filter is_pending_job self.now.farm.jobs)) self.now.farm.next_job }
    {
        let pending = count_pending(self.lists.jobs.as_slice());
        u128::from(self.lists.next_finish) + pending as u128 <= u128::from(self.lists.next_job)
    }

    // The first pending job whose layers aren't all its frames.
    fn job_lacking_frames(&self) -> Option<u64>
        ensures { option_map (λ job. (6, job)) result ≡ first_job (lacks_frames self.now.farm) self.now.farm.jobs }
    {
        first_lacking(self, self.lists.jobs.as_slice())
    }

    // Whether the job is pending, and its layers aren't all its frames.
    fn lacks_frames(&self, job: &JobRow) -> bool
        ensures { result ≡ lacks_frames self.now.farm job.now }
    {
        is_pending(job) && self.frames_said(job.job) != u128::from(job.frames)
    }

    // The first layer of which a number has no slot.
    fn layer_lacking_slots(&self) -> Option<u64>
        ensures { option_map (λ layer. (7, layer)) result ≡ first_layer (lacks_slots self.now.farm) self.now.farm.layers }
    {
        let place = place_lacking(self.layers.as_slice());
        key_at(self.lists.layers.as_slice(), place)
    }

    // The first pending job of which no frame is left.
    fn job_finishing(&self) -> Option<u64>
        ensures { option_map (λ job. (6, job)) result ≡ first_job (finishes self.now.farm.slots) self.now.farm.jobs }
    {
        first_ending(self.lists.jobs.as_slice(), self.jobs.left())
    }
}

// The key of the first of these layers whose limit isn't there, where there are so many.
fn first_unlimited(limits: usize, layers: &[LayerRow]) -> Option<u64>
    ensures { option_map (λ layer. (7, layer)) result ≡ first_layer (λ l. not (has_its_limit limits l)) layers.now }
{
    for layer in layers {
        if !has_its_limit(limits, layer) {
            return Some(layer_key(layer.job, layer.place));
        }
    }
    None
}

// Whether the layer has no limit, or one of so many.
fn has_its_limit(limits: usize, layer: &LayerRow) -> bool
    ensures { result ≡ has_its_limit limits layer.now }
{
    match layer.limit {
        None => true,
        Some(limit) => (limit.0 as usize) < limits,
    }
}

// The number of the first of these jobs that is pending, and whose layers aren't all its frames.
fn first_lacking(rows: &StoredRows, jobs: &[JobRow]) -> Option<u64>
    ensures { option_map (λ job. (6, job)) result ≡ first_job (lacks_frames rows.now.farm) jobs.now }
{
    for job in jobs {
        if rows.lacks_frames(job) {
            return Some(u64::from(job.job.0));
        }
    }
    None
}

// The place of the first layer of which a number has no slot, and how many there are where there is none.
fn place_lacking(known: &[KnownLayer]) -> usize
    ensures { result ≡ position_or_len lacks_any known.now }
{
    for (place, layer) in known.iter().enumerate() {
        if layer.lacks() {
            return place;
        }
    }
    known.len()
}

// The key of the layer at a place.
fn key_at(layers: &[LayerRow], place: usize) -> Option<u64>
    ensures { result ≡ option_map layer_key (slice_get layers.now place) }
{
    match layers.get(place) {
        None => None,
        Some(layer) => Some(layer_key(layer.job, layer.place)),
    }
}

// The number of the first of these jobs that is pending, and of which no frame is left.
fn first_ending(jobs: &[JobRow], left: &[bool]) -> Option<u64>
    requires left { length left.now ≡ length jobs.now }
    ensures { result ≡ first_ending jobs.now left.now }
{
    for (place, job) in jobs.iter().enumerate() {
        if is_ending(job, left[place]) {
            return Some(u64::from(job.job.0));
        }
    }
    None
}

// Whether the job is pending, and no frame of it is left.
fn is_ending(job: &JobRow, left: bool) -> bool
    ensures { result ≡ (is_pending_job job.now && not left) }
{
    is_pending(job) && !left
}

// Whether the job is pending.
fn is_pending(job: &JobRow) -> bool
    ensures { result ≡ is_pending_job job.now }
{
    job.state.is_pending()
}

// How many jobs are pending.
fn count_pending(jobs: &[JobRow]) -> usize
    ensures { result ≡ length (filter is_pending_job jobs.now) }
{
    jobs.iter().filter(|job| is_pending(job)).count()
}
