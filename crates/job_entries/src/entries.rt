//! The jobs of the book, each with what is kept of it.

ghost use Rattle.std.specs.Prelude.{◌≡◌, ◌<◌, ◌==◌, ◌&&◌, [], ℕ, find, nat_lt, option_copied, option_map, slice_get, IfOk};
ghost use Rattle.farm_types.specs.Farm.{layers_of};
ghost use Rattle.job_entries.specs.Entries.{IsAt, at_of, counts_in, layer_position, no_entries};
ghost use Rattle.job_index.specs.declared.limits.TheConstants.{MOST_JOBS};

use crate::counts::Counts;
use crate::entry::Entry;
use crate::places::{entry_at, entry_in, number_after, place_in};
use farm_types::{JobNo, JobRow, LayerRow};
use job_index::{LayerFrames, MOST_JOBS};
use std::alloc::{AllocError, Global};
use std::marker::Model;

/// How many places the book has memory for: twice the most jobs, so that empty places are closed up once in so many jobs.
pub(crate) const MOST_PLACES: u32 = 2 * MOST_JOBS;

/// The place of a job: its number, and the job, or none where it left the book.
#[derive(Debug, Drop)]
pub(crate) struct Place {
    pub(crate) job: JobNo,
    pub(crate) held: Option<Entry>,
}

/// A job's number, and its place among those of all jobs. Where the job isn't there, the place is past the last.
#[derive(Clone, Copy)]
pub struct At {
    pub(crate) job: JobNo,
    pub(crate) place: usize,
}

/// The jobs in the order of their numbers, and the next job's number. A job that leaves the book leaves an empty place, so
/// that no other one moves. Contracts see the jobs' rows, their counts, their layers, and where the frames of the layers stand,
/// each as a list, one job after another, and the numbers of all places. A job's place is looked for once (`at`), and handed on.
#[derive(Debug, Drop)]
pub struct Entries {
    pub(crate) places: Vec<Place>,
    pub(crate) next: u64,
}

impl Model for Entries {
    ghost use Rattle.std.specs.Vec.{vec_capacity};
    ghost use Rattle.job_entries.specs.OneJob as types;
    ghost use Rattle.job_entries.specs.Entries.{KeepsEntries, all_of, held, place_key};
    ghost use Rattle.std.specs.Prelude.{map};

    ghost Value = { types.AllJobs };

    ghost view = { λ entries. all_of (map place_key entries.places.items) (held entries.places.items) entries.next };

    ghost invariant = { λ entries. KeepsEntries entries.places.items entries.next (vec_capacity entries.places) };
}

impl Entries {
    /// No jobs. It takes the memory of all places at once.
    pub fn make(alloc: Global) -> Result<Entries, AllocError>
        ensures { IfOk result (λ entries. entries ≡ no_entries) }
    {
        Ok(Entries {
            places: Vec::with_capacity(alloc, MOST_PLACES as usize)?,
            next: 1,
        })
    }

    /// The next job's number, one past the last where none is left.
    pub fn next(&self) -> u64
        ensures { result ≡ self.now.next }
    {
        self.next
    }

    /// The place of the job of that number.
    pub fn at(&self, job: JobNo) -> At
        ensures { result ≡ at_of job self.now.numbers }
    {
        At {
            job,
            place: place_in(self.places.as_slice(), job.0),
        }
    }

    /// The row of the job at a place.
    pub fn row_at(&self, at: &At) -> Option<&JobRow>
        requires { IsAt at.now self.now.numbers }
        ensures { option_copied result ≡ find (λ j. j.job == at.now.job) self.now.rows }
    {
        match entry_at(self.places.as_slice(), at.place) {
            None => None,
            Some(entry) => Some(entry.row()),
        }
    }

    /// The row of the job of that number.
    pub fn row(&self, job: JobNo) -> Option<&JobRow>
        ensures { option_copied result ≡ find (λ j. j.job == job) self.now.rows }
    {
        let at = self.at(job);
        self.row_at(&at)
    }

    /// The number of the first job above one.
    pub fn after(&self, after: u32) -> Option<JobNo>
        ensures { result ≡ option_map (λ j. j.job) (find (λ j. nat_lt after j.job) self.now.rows) }
    {
        number_after(self.places.as_slice(), after)
    }

    /// How many frames of the job at a place are in each state, none where it isn't there.
    pub fn counts_at(&self, at: &At) -> Option<Counts>
        requires { IsAt at.now self.now.numbers }
        ensures { result ≡ counts_in at.now.job self.now }
    {
        match entry_at(self.places.as_slice(), at.place) {
            None => None,
            Some(entry) => Some(entry.counts()),
        }
    }

    /// How many frames of a job are in each state, none where it isn't there.
    pub fn counts(&self, job: JobNo) -> Option<Counts>
        ensures { result ≡ counts_in job self.now }
    {
        let at = self.at(job);
        self.counts_at(&at)
    }

    /// The layers of a job, in order.
    pub fn layers(&self, job: JobNo) -> &[LayerRow]
        ensures { result.now ≡ layers_of self.now.layers job }
    {
        match entry_in(self.places.as_slice(), job) {
            None => &[],
            Some(entry) => entry.layers(),
        }
    }

    /// The layer at that place (from 0) of a job.
    pub fn layer(&self, job: JobNo, place: u32) -> Option<&LayerRow>
        ensures { option_copied result ≡ find (λ l. l.job == job && l.place == place) self.now.layers }
    {
        match entry_in(self.places.as_slice(), job) {
            None => None,
            Some(entry) => layer_at(entry.layers(), place),
        }
    }

    /// Where the frames of each layer of the job at a place stand.
    pub fn index_at(&self, at: &At) -> &[LayerFrames]
        requires { IsAt at.now self.now.numbers }
        ensures { (layer : ℕ) → slice_get result.now layer ≡ slice_get self.now.index (layer_position at.now.job layer self.now.layers) }
    {
        match entry_at(self.places.as_slice(), at.place) {
            None => &[],
            Some(entry) => entry.index(),
        }
    }

    /// Where the frames of each layer of a job stand.
    pub fn index(&self, job: JobNo) -> &[LayerFrames]
        ensures { (layer : ℕ) → slice_get result.now layer ≡ slice_get self.now.index (layer_position job layer self.now.layers) }
    {
        let at = self.at(job);
        self.index_at(&at)
    }
}

// The layer at a place of the list.
fn layer_at(layers: &[LayerRow], place: u32) -> Option<&LayerRow>
    ensures { option_copied result ≡ slice_get layers.now place }
{
    layers.get(place as usize)
}
