//! What is read of one job: its layers, and where the frames of each stand.

ghost use Rattle.std.specs.Prelude.{◌≡◌, ◌==◌, ◌&&◌, ℕ, None, IfSome, find, option_map, slice_get, true};
ghost use Rattle.std.specs.List.{list_all, list_any};
ghost use Rattle.farm_types.specs.Farm.{for_some, is_placed, layers_of, slot_from};
ghost use Rattle.farm_types.specs.Finish.{is_finished};
ghost use Rattle.farm_types.specs.Jobs.{is_finished_named, is_pending_named, without_finished};
ghost use Rattle.job_book.specs.Book.{without_job};
ghost use Rattle.job_book.specs.Inside.{is_below};

use crate::jobs::Jobs;
use crate::placement::check::is_pending_in;
use crate::reading::layer_index::slots_in;
use farm_types::{JobNo, LayerRow, Slot};

impl Jobs {
    /// The next job's number, one past the last where none is left. No job and no layer has it, and no frame is of it or a later one.
    pub fn next_number(&self) -> u64
        ensures value { result ≡ self.now.next_job }
        ensures no_job { find (λ j. j.job == self.now.next_job) self.now.jobs ≡ None }
        ensures no_layer { (place : ℕ) → find (λ l. l.job == self.now.next_job && l.place == place) self.now.layers ≡ None }
        ensures no_frame { list_all (is_below self.now.next_job) self.now.slots ≡ true }
    {
        self.entries.next()
    }

    /// The number of the next job that finishes.
    pub fn next_finish(&self) -> u64
        ensures { result ≡ self.now.next_finish }
    {
        self.next_finish
    }

    /// The number of the pending job of that name.
    pub fn pending(&self, name: &str) -> Option<JobNo>
        ensures { result ≡ option_map (λ j. j.job) (find (is_pending_named name.now) self.now.jobs) }
    {
        let job = self.names.get(name)?;
        if is_pending_in(&self.entries, job) {
            return Some(job);
        }
        None
    }

    /// The number of the finished job of that name, which leaves where a job of the name is placed.
    pub fn finished_named(&self, name: &str) -> Option<JobNo>
        ensures without { without_finished name.now self.now.jobs ≡ without_job result self.now.jobs }
        ensures there { IfSome result (λ job. for_some (find (λ j. j.job == job) self.now.jobs) is_finished ≡ true) }
    {
        let job = self.names.get(name)?;
        if is_pending_in(&self.entries, job) {
            return None;
        }
        Some(job)
    }

    /// Whether a finished job of that name is kept.
    pub fn has_finished(&self, name: &str) -> bool
        ensures { result ≡ list_any (is_finished_named name.now) self.now.jobs }
    {
        match self.names.get(name) {
            None => false,
            Some(job) => !is_pending_in(&self.entries, job),
        }
    }

    /// The layers of a job, in order.
    pub fn layers_of(&self, job: JobNo) -> &[LayerRow]
        ensures { result.now ≡ layers_of self.now.layers job }
    {
        self.entries.layers(job)
    }

    /// The slots of the frames of a job's layer at that place (from 0), in range order.
    pub fn layer_slots(&self, job: JobNo, layer: u32) -> &[Slot]
        ensures { (position : ℕ) → slot_from 0 (is_placed job layer position) self.now.slots ≡ slice_get result.now position }
    {
        slots_in(self.entries.index(job), layer as usize)
    }
}
