//! What is read of the book.

ghost use Rattle.std.specs.Prelude.{◌≡◌, ◌==◌, ◌&&◌, ◌≤◌, ◌<◌, [], length, slice_get, find, option_and_then, option_copied, true, All, IfNone, IfSome, Some};
ghost use Rattle.farm_types.specs.Farm.{is_placed, layer_in, slot_from};
ghost use Rattle.farm_types.specs.Rising.{IsNextKey, job_key};
ghost use Rattle.farm_types.specs.declared.limits.TheConstants.{MOST_SHOWS, SLOT_LIMIT};
ghost use Rattle.job_book.specs.Book.{job_named, job_after, frame_at, frame_view, state_at, has_frame, has_job, counts_of};
ghost use Rattle.job_book.specs.Finished.{finished_of};
ghost use Rattle.job_book.specs.Index.{WaitsFirst, ready_of};

use crate::jobs::Jobs;
use crate::reading::frame_view::FrameView;
use crate::reading::layer_index::{slot_in, waiting_in};
use crate::reading::ready::jobs_in;
use farm_types::{
    Frame, FrameState, JobNo, JobRow, LayerRow, LimitNo, ShowNo, Slot, SlotRow, Version,
};
use job_entries::Counts;

impl Jobs {
    /// The slots, each at its number, up to the last that was ever used.
    pub fn slots(&self) -> &[SlotRow]
        ensures value { result.now ≡ self.now.slots }
        ensures count { length result.now ≤ SLOT_LIMIT }
    {
        self.slots.as_slice()
    }

    /// What stands in a slot, none past the last that was ever used.
    pub fn row(&self, slot: Slot) -> Option<SlotRow>
        ensures { result ≡ slice_get self.now.slots slot }
    {
        self.slots.get(slot.0 as usize).copied()
    }

    /// The job of that number.
    pub fn job(&self, job: JobNo) -> Option<&JobRow>
        ensures { option_copied result ≡ find (λ j. j.job == job) self.now.jobs }
    {
        self.entries.row(job)
    }

    /// The number of the job with the least number above `after`.
    pub fn next(&self, after: u32) -> Option<JobNo>
        ensures value { result ≡ job_after self.now after }
        ensures least { IfSome result (IsNextKey job_key self.now.jobs after) }
        ensures none { IfNone result (All (λ j. j.job ≤ after) self.now.jobs) }
    {
        self.entries.after(after)
    }

    /// The layer at that place (from 0) of a job.
    pub fn layer(&self, job: JobNo, place: u32) -> Option<&LayerRow>
        ensures { option_copied result ≡ find (λ l. l.job == job && l.place == place) self.now.layers }
    {
        self.entries.layer(job, place)
    }

    /// The limit of the layer at that place (from 0) of a job, none where the layer has none or isn't there.
    pub fn layer_limit(&self, job: JobNo, place: u32) -> Option<LimitNo>
        ensures { result ≡ option_and_then (λ l. l.limit) (layer_in self.now.layers job place) }
    {
        match self.layer(job, place) {
            None => None,
            Some(layer) => layer.limit,
        }
    }

    /// The number of the first job of that name, finished ones too.
    pub fn find(&self, name: &str) -> Option<JobNo>
        ensures { result ≡ job_named self.now name.now }
    {
        self.names.get(name)
    }

    /// The frame in a slot that has one.
    pub fn frame(&self, slot: Slot) -> FrameView
        requires { has_frame self.now slot ≡ true }
        ensures { frame_at self.now slot ≡ Some result }
    {
        let Some(row) = self.row(slot) else {
            unreachable!()
        };
        let Some(frame) = &row.frame else {
            unreachable!()
        };
        frame_view(row.version, frame)
    }

    /// The state of the frame in a slot, none where there is no frame, and the slot's version, 0 where it was never used.
    pub fn state(&self, slot: Slot) -> (Option<FrameState>, Version)
        ensures { result ≡ state_at self.now slot }
    {
        match self.row(slot) {
            None => (None, Version(0)),
            Some(row) => match &row.frame {
                None => (None, row.version),
                Some(frame) => (Some(frame.state), row.version),
            },
        }
    }

    /// The first slot with the frame of a job, at a position (from 0) of the layer at that place (from 0).
    pub fn slot(&self, job: JobNo, layer: u32, position: u32) -> Option<Slot>
        ensures { result ≡ slot_from 0 (is_placed job layer position) self.now.slots }
    {
        slot_in(self.entries.index(job), layer as usize, position)
    }

    /// The slot of the first waiting frame of a job's layer at a position (from 0) or later, none where there is none.
    pub fn waiting(&self, job: JobNo, layer: u32, from: u32) -> Option<Slot>
        ensures { WaitsFirst self.now job layer from result }
    {
        waiting_in(self.entries.index(job), layer as usize, from)
    }

    /// The pending jobs of a show with a waiting frame, by priority, the highest first, then by number. A show past the last
    /// that there can be has none.
    pub fn ready(&self, show: ShowNo) -> &[JobNo]
        ensures listed { show < MOST_SHOWS → result.now ≡ ready_of self.now show }
        ensures past { MOST_SHOWS ≤ show → result.now ≡ [] }
    {
        jobs_in(self.ready.as_slice(), show.0 as usize)
    }

    /// The finished jobs, in the order of their finish.
    pub fn finished(&self) -> &[JobNo]
        ensures { result.now ≡ finished_of self.now.jobs }
    {
        self.finished.jobs()
    }

    /// How many frames of a job are in each state.
    pub fn counts(&self, job: JobNo) -> Counts
        requires { has_job self.now job ≡ true }
        ensures { result ≡ counts_of job self.now.slots }
    {
        let Some(counts) = self.entries.counts(job) else {
            unreachable!()
        };
        counts
    }
}

// The frame, with its slot's version.
fn frame_view(version: Version, frame: &Frame) -> FrameView
    ensures { result ≡ frame_view version frame.now }
{
    FrameView {
        job: frame.job,
        layer: frame.layer,
        position: frame.position,
        number: frame.number,
        state: frame.state,
        version,
        retries: frame.retries,
    }
}
