//! Rows of layers.

ghost use Rattle.std.specs.Prelude.{◌≡◌, ◌≤◌, ◌<◌, ◌+◌, ◌^◌, true, IfOk, OnOk, bytes_eq, drop, length, map, take};
ghost use Rattle.std.specs.List.{list_any, sum_by};
ghost use Rattle.farm_types.specs.Farm.{layers_of};
ghost use Rattle.farm_types.specs.Kept.{frames_said, is_formed_layer, is_of_pending, layer_label};
ghost use Rattle.farm_rows.specs.declared.farm_row.FarmRow.TheVariants as kind;
ghost use Rattle.farm_rows.specs.Recovery.{comes_after, frames_fit, key_of, layer_fits};
ghost use Rattle.row_index.specs.Ranges.{IsRangeOf};
ghost use Rattle.stored_rows.specs.Known.{layer_known};
ghost use Rattle.stored_rows.specs.Told.{Accepts, told_with};

use crate::forms::{are_cores, are_memory, are_tags, is_command, is_short_command};
use crate::stored_rows::StoredRows;
use farm_types::{JobNo, LayerRow, MOST_LAYERS, Text, is_name};
use frame_range::FrameSet;
use row_index::{KnownLayer, job_in, layer_bounds, layer_key, range_of};
use std::alloc::{AllocError, Global};

impl StoredRows {
    /// Takes the row of a layer.
    pub(crate) fn add_layer(&mut self, alloc: Global, row: LayerRow) -> Result<bool, AllocError>
        requires after { comes_after self.old.last (key_of (kind.Layer row)) ≡ true }
        ensures { IfOk result (λ taken. Accepts taken self.old (kind.Layer row) self.new) }
    {
        let Some(set) = range_of(alloc, &row.range)? else {
            return Ok(false);
        };
        if !(self.lists.recorded && self.layer_fits(&row, &set)) {
            return Ok(false);
        }
        self.push_layer(alloc, row, set)?;
        Ok(true)
    }

    // Whether it fits.
    fn layer_fits(&self, row: &LayerRow, set: &FrameSet) -> bool
        requires range { IsRangeOf row.now.range set.now }
        ensures { result ≡ layer_fits self.now.farm row.now }
    {
        let layers = self.layers_of(row.job);
        self.is_of_pending(row.job)
            && (row.place as usize == layers.len()
                && (is_formed_layer(row, set)
                    && (!has_layer(layers, &row.name) && self.frames_fit(row, set))))
    }

    /// The layers of a job.
    pub(crate) fn layers_of(&self, job: JobNo) -> &[LayerRow]
        ensures { result.now ≡ layers_of self.now.farm.layers job }
    {
        let (first, count) = layer_bounds(self.lists.layers.as_slice(), job);
        part_of(self.lists.layers.as_slice(), first, count)
    }

    /// What is known of the layers of a job.
    pub(crate) fn known_of(&self, job: JobNo) -> &[KnownLayer]
        ensures { result.now ≡ map (layer_known self.now.farm.slots) (layers_of self.now.farm.layers job) }
    {
        let (first, count) = layer_bounds(self.lists.layers.as_slice(), job);
        part_of(self.layers.as_slice(), first, count)
    }

    /// Whether the job is there and pending.
    pub(crate) fn is_of_pending(&self, job: JobNo) -> bool
        ensures { result ≡ is_of_pending self.now.farm.jobs job }
    {
        match job_in(self.lists.jobs.as_slice(), job) {
            None => false,
            Some(row) => row.state.is_pending(),
        }
    }

    // Whether the frames of the job's layers, with those of one more, are within what it was submitted with.
    fn frames_fit(&self, row: &LayerRow, set: &FrameSet) -> bool
        requires range { IsRangeOf row.now.range set.now }
        ensures { result ≡ frames_fit self.now.farm row.now }
    {
        match job_in(self.lists.jobs.as_slice(), row.job) {
            None => false,
            Some(job) => {
                self.frames_said(row.job) + set.numbers().len() as u128 <= u128::from(job.frames)
            }
        }
    }

    /// How many frames the job's layers say.
    pub(crate) fn frames_said(&self, job: JobNo) -> u128
        ensures value { result ≡ frames_said (layers_of self.now.farm.layers job) }
        ensures within { result < 2 ^ 80 }
    {
        count_numbers(self.known_of(job))
    }

    // It is the last of the layers.
    fn push_layer(&mut self, alloc: Global, row: LayerRow, set: FrameSet) -> Result<(), AllocError>
        requires after { comes_after self.old.last (key_of (kind.Layer row)) ≡ true }
        requires fits { layer_fits self.old.farm row ≡ true }
        requires range { IsRangeOf row.range set }
        ensures { OnOk result (self.new ≡ told_with self.old (kind.Layer row)) }
    {
        self.lists.layers.reserve(1)?;
        self.layers.reserve(1)?;
        let known = KnownLayer::make(alloc, set)?;
        let id = layer_key(row.job, row.place);
        self.layers.push_reserved(known);
        self.lists.layers.push_reserved(row);
        self.last = Some((7, id));
        Ok(())
    }
}

// So many items from a place on.
fn part_of<T>(items: &[T], first: usize, count: usize) -> &[T]
    requires within { first + count ≤ length items.now }
    ensures { result.now ≡ take count (drop first items.now) }
{
    let rest = &items[first..];
    &rest[..count]
}

// How many numbers the layers have together.
fn count_numbers(layers: &[KnownLayer]) -> u128
    ensures value { result ≡ sum_by (λ k. length k.numbers) layers.now }
    ensures within { result < 2 ^ 80 }
{
    let mut count = 0;
    for layer in layers {
        count += layer.numbers().len() as u128;
    }
    count
}

// Whether one of these layers has the name.
fn has_layer(layers: &[LayerRow], name: &Text) -> bool
    ensures { result ≡ list_any (λ l. bytes_eq (layer_label l) name.now) layers.now }
{
    layers.iter().any(|layer| layer.name.is(name.as_str()))
}

// Whether the layer, with a range of that set, has its form.
fn is_formed_layer(row: &LayerRow, set: &FrameSet) -> bool
    requires range { IsRangeOf row.now.range set.now }
    ensures { result ≡ is_formed_layer row.now }
{
    let _set = set;
    is_name(row.name.as_str())
        && (row.place < MOST_LAYERS
            && (is_short_command(row.command.as_str())
                && (is_command(row.command.as_str())
                    && (are_cores(row.cores)
                        && (are_memory(row.memory) && are_tags(1, &row.tags))))))
}
