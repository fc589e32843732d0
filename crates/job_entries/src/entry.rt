//! One job as the book holds it.

ghost use Rattle.std.specs.Prelude.{◌≡◌, ◌<◌};
ghost use Rattle.farm_types.specs.Farm.{changed_at};
ghost use Rattle.job_entries.specs.Counting.{CanMove};
ghost use Rattle.job_entries.specs.Entries.{with_finish, with_mark, with_moved, with_paused};
ghost use Rattle.job_index.specs.Places.{marked};
ghost use Rattle.std.specs.Vec.{vec_capacity};

use crate::counting::{all_waiting, moved};
use crate::counts::Counts;
use farm_types::{FrameState, JobRow, JobState, LayerRow};
use job_index::LayerFrames;
use std::marker::Model;

/// A job's row, how many of its frames are in each state, its layers, and where the frames of each layer stand.
#[derive(Debug, Drop)]
pub struct Entry {
    pub(crate) row: JobRow,
    pub(crate) counts: Counts,
    pub(crate) layers: Vec<LayerRow>,
    pub(crate) index: Vec<LayerFrames>,
}

impl Model for Entry {
    ghost use Rattle.job_entries.specs.OneJob as types;

    ghost Value = { types.OneJob };

    ghost view = { λ entry. record { row = entry.row; counts = entry.counts; layers = entry.layers.items; index = entry.index.items } };
}

impl Entry {
    /// A job of that row, with the counts of its frames, its layers, and where the frames of those stand.
    pub fn make(
        row: JobRow,
        counts: Counts,
        layers: Vec<LayerRow>,
        index: Vec<LayerFrames>,
    ) -> Entry
        ensures { result ≡ record { row = row; counts = counts; layers = layers.items; index = index.items } }
    {
        Entry {
            row,
            counts,
            layers,
            index,
        }
    }

    /// The job's row.
    pub(crate) fn row(&self) -> &JobRow
        ensures { result.now ≡ self.now.row }
    {
        &self.row
    }

    /// How many frames are in each state.
    pub(crate) fn counts(&self) -> Counts
        ensures { result ≡ self.now.counts }
    {
        self.counts
    }

    /// The job's layers, in order.
    pub(crate) fn layers(&self) -> &[LayerRow]
        ensures { result.now ≡ self.now.layers }
    {
        self.layers.as_slice()
    }

    /// Where the frames of the layers stand.
    pub(crate) fn index(&self) -> &[LayerFrames]
        ensures { result.now ≡ self.now.index }
    {
        self.index.as_slice()
    }

    /// Whether a frame waits is noted.
    pub(crate) fn mark(&mut self, layer: u32, position: u32, waits: bool)
        ensures { self.new ≡ with_mark layer position waits self.old }
    {
        mark_in(&mut self.index, layer as usize, position, waits);
    }

    /// A frame goes from one state into another.
    pub(crate) fn recount(&mut self, old: FrameState, new: FrameState)
        requires { CanMove old new self.old.counts }
        ensures { self.new ≡ with_moved old new self.old }
    {
        self.counts = moved(self.counts, old, new);
    }

    /// The job is paused, or resumed.
    pub(crate) fn pause(&mut self, paused: bool)
        ensures { self.new ≡ with_paused paused self.old }
    {
        self.row.paused = paused;
    }

    /// The job finishes by that number, with these counts: it has no layers any more.
    pub(crate) fn finish(&mut self, finish: u64, counts: Counts)
        ensures { self.new ≡ with_finish finish counts self.old }
    {
        self.row.state = JobState::Finished;
        self.row.finish = finish;
        self.row.eaten = counts.eaten;
        self.row.succeeded = counts.succeeded;
        self.counts = all_waiting(0);
        self.layers.clear();
        self.index.clear();
    }
}

// Whether the frame at a position of the layer at that place waits is noted.
fn mark_in(index: &mut Vec<LayerFrames>, place: usize, position: u32, waits: bool)
    ensures items { index.new.items ≡ changed_at index.old.items place (marked position waits) }
    ensures capacity { vec_capacity index.new ≡ vec_capacity index.old }
{
    if place < index.len() {
        index[place].mark(position, waits);
    }
}
