//! The jobs of rows that are given, each with what is kept of it.

ghost use Rattle.std.specs.Prelude.{◌≡◌, ◌≤◌, ◌<◌, length, take, drop, slice_get, Some, IfOk, OnOk};
ghost use Rattle.farm_types.specs.Rising.{IsRising, job_key};
ghost use Rattle.job_entries.specs.Restored.{AreOwned, all_in, own_count, place_with};

use crate::counts::Counts;
use crate::entries::{Entries, MOST_PLACES, Place};
use crate::entry::Entry;
use farm_types::{JobNo, JobRow, LayerRow};
use job_index::LayerFrames;
use std::alloc::{AllocError, Global};
use std::collections::VecDeque;

/// The jobs of these rows, with their counts, their layers and where the frames of those stand, and the next job's number.
pub fn entries_of(
    alloc: Global,
    rows: Vec<JobRow>,
    counts: &[Counts],
    layers: Vec<LayerRow>,
    index: Vec<LayerFrames>,
    next: u64,
) -> Result<Entries, AllocError>
    requires rise { IsRising job_key 0 rows.items next }
    requires owned { AreOwned rows.items layers.items }
    requires counts { length counts.now ≡ length rows.items }
    requires index { length index.items ≡ length layers.items }
    ensures { IfOk result (λ entries. entries ≡ all_in rows.items counts.now layers.items index.items next) }
{
    let mut layers = VecDeque::from(layers);
    let mut index = VecDeque::from(index);
    let mut places = Vec::with_capacity(alloc, MOST_PLACES as usize)?;
    let mut at = 0;
    for row in rows {
        let count = count_own(&layers, row.job);
        let own = take_front(alloc, &mut layers, count)?;
        let frames = take_front(alloc, &mut index, count)?;
        places.push(place_with(row, counts_at(counts, at), own, frames))?;
        at += 1;
    }
    Ok(Entries { places, next })
}

// The counts at a place.
fn counts_at(counts: &[Counts], at: usize) -> &Counts
    requires { at < length counts.now }
    ensures { slice_get counts.now at ≡ Some result.now }
{
    &counts[at]
}

// The place of a job, with what is kept of it.
fn place_with(row: JobRow, counts: &Counts, layers: Vec<LayerRow>, index: Vec<LayerFrames>) -> Place
    ensures { result ≡ place_with row counts.now layers.items index.items }
{
    Place {
        job: row.job,
        held: Some(Entry {
            row,
            counts: *counts,
            layers,
            index,
        }),
    }
}

// How many layers of the job stand in front.
fn count_own(layers: &VecDeque<LayerRow>, job: JobNo) -> usize
    ensures value { result ≡ own_count job layers.now.items }
    ensures within { result ≤ length layers.now.items }
{
    for at in 0..layers.len() {
        if layers[at].job != job {
            return at;
        }
    }
    layers.len()
}

// So many items, from the front.
fn take_front<T: Drop>(
    alloc: Global,
    items: &mut VecDeque<T>,
    count: usize,
) -> Result<Vec<T>, AllocError>
    requires { count ≤ length items.old.items }
    ensures taken { IfOk result (λ front. front.items ≡ take count items.old.items) }
    ensures left { OnOk result (items.new.items ≡ drop count items.old.items) }
{
    let mut front = Vec::with_capacity(alloc, count)?;
    for _turn in 0..count {
        let Some(item) = items.pop_front() else {
            unreachable!()
        };
        front.push(item)?;
    }
    Ok(front)
}
