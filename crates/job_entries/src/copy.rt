//! Equal jobs.

ghost use Rattle.std.specs.Prelude.{◌≡◌, ◌≤◌, IfOk};
ghost use Rattle.std.specs.Vec.{vec_capacity};

use crate::entries::{Entries, MOST_PLACES, Place};
use crate::entry::Entry;
use farm_types::LayerRow;
use job_index::LayerFrames;
use std::alloc::{AllocError, Global};

impl Entries {
    /// Equal jobs, with the same capacity.
    pub fn copy(&self, alloc: Global) -> Result<Entries, AllocError>
        ensures { IfOk result (λ copy. copy ≡ self.now) }
    {
        Ok(Entries {
            places: copies(alloc, self.places.as_slice(), MOST_PLACES)?,
            next: self.next,
        })
    }
}

// A row of the book whose texts are copied with it.
trait Row: Drop {
    // An equal row.
    fn copy(&self, alloc: Global) -> Result<Self, AllocError>
        ensures { IfOk result (λ copy. copy ≡ self.now) };
}

impl Row for LayerRow {
    fn copy(&self, alloc: Global) -> Result<LayerRow, AllocError> {
        LayerRow::copy(self, alloc)
    }
}

impl Row for LayerFrames {
    fn copy(&self, alloc: Global) -> Result<LayerFrames, AllocError> {
        LayerFrames::copy(self, alloc)
    }
}

impl Row for Entry {
    fn copy(&self, alloc: Global) -> Result<Entry, AllocError> {
        Ok(Entry {
            row: self.row.copy(alloc)?,
            counts: self.counts,
            layers: copies(alloc, self.layers.as_slice(), 0)?,
            index: copies(alloc, self.index.as_slice(), 0)?,
        })
    }
}

impl Row for Place {
    fn copy(&self, alloc: Global) -> Result<Place, AllocError> {
        let held = match &self.held {
            None => None,
            Some(entry) => Some(Row::copy(entry, alloc)?),
        };
        Ok(Place {
            job: self.job,
            held,
        })
    }
}

// Equal rows, with a capacity.
fn copies<R: Row>(alloc: Global, rows: &[R], capacity: u32) -> Result<Vec<R>, AllocError>
    ensures items { IfOk result (λ copies. copies.items ≡ rows.now) }
    ensures capacity { IfOk result (λ copies. capacity ≤ vec_capacity copies) }
{
    let mut copies = Vec::with_capacity(alloc, capacity as usize)?;
    for row in rows {
        copies.push(row.copy(alloc)?)?;
    }
    Ok(copies)
}
