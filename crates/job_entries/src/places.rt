//! The places of jobs, in the order of their numbers.

ghost use Rattle.std.specs.Prelude.{◌≡◌, ◌<◌, ◌≤◌, [], drop, length, filter, find, nat_lt, slice_get};
ghost use Rattle.std.specs.Prelude.{option_copied, option_map, if◌then◌else◌, IfSome, None, Some};
ghost use Rattle.std.specs.Vec.{vec_capacity};
ghost use Rattle.farm_types.specs.Farm.{changed_at};
ghost use Rattle.job_entries.specs.Counting.{CanMove};
ghost use Rattle.job_entries.specs.Entries.{ArePlaces, emptied, has_number, held, held_in, is_taken, onto, place_of_number};
ghost use Rattle.job_entries.specs.Entries.{with_finish, with_held, with_mark, with_moved, with_paused};

use crate::counts::Counts;
use crate::entries::Place;
use crate::entry::Entry;
use farm_types::{FrameState, JobNo, JobRow};

/// The job of that number.
pub(crate) fn entry_in(places: &[Place], job: JobNo) -> Option<&Entry>
    requires { ArePlaces places.now }
    ensures { option_copied result ≡ find (has_number job) (held places.now) }
{
    entry_at(places, place_in(places, job.0))
}

/// The number of the first job above one.
pub(crate) fn number_after(places: &[Place], after: u32) -> Option<JobNo>
    requires { ArePlaces places.now }
    ensures { result ≡ option_map (λ e. e.row.job) (find (λ e. nat_lt after e.row.job) (held places.now)) }
{
    for at in place_above(places, after)..places.len() {
        if let Some(job) = number_above(&places[at], after) {
            return Some(job);
        }
    }
    None
}

// The number of the job at a place, where there is one above a number.
fn number_above(place: &Place, after: u32) -> Option<JobNo>
    ensures { result ≡ option_map (λ e. e.row.job) (find (λ e. nat_lt after e.row.job) (onto place.now.held [])) }
{
    match &place.held {
        None => None,
        Some(entry) => number_if_above(entry.row(), after),
    }
}

// The job's number, where it is above another.
fn number_if_above(row: &JobRow, after: u32) -> Option<JobNo>
    ensures { result ≡ if nat_lt after row.now.job then Some row.now.job else None }
{
    if row.job.0 > after {
        return Some(row.job);
    }
    None
}

/// The place of a number, and how many places there are where it has none.
pub(crate) fn place_in(places: &[Place], job: u32) -> usize
    requires { ArePlaces places.now }
    ensures { result ≡ place_of_number job places.now }
{
    places
        .binary_search_by_key(&job, |place| place.job.0)
        .unwrap_or(places.len())
}

// The place of the first number above `after`.
fn place_above(places: &[Place], after: u32) -> usize
    requires { ArePlaces places.now }
    ensures within { result ≤ length places.now }
    ensures found { find (λ e. nat_lt after e.row.job) (held (drop result places.now)) ≡ find (λ e. nat_lt after e.row.job) (held places.now) }
{
    places.partition_point(|place| place.job.0 <= after)
}

/// The job at a place.
pub(crate) fn entry_at(places: &[Place], at: usize) -> Option<&Entry>
    ensures { option_copied result ≡ held_in (slice_get places.now at) }
{
    match places.get(at) {
        None => None,
        Some(place) => place.held.as_ref(),
    }
}

/// Whether a frame of the job at a place waits is noted.
pub(crate) fn mark_at(places: &mut Vec<Place>, at: usize, layer: u32, position: u32, waits: bool)
    ensures items { places.new.items ≡ changed_at places.old.items at (with_held (with_mark layer position waits)) }
    ensures capacity { vec_capacity places.new ≡ vec_capacity places.old }
{
    if at < places.len() {
        places[at].mark(layer, position, waits);
    }
}

/// A frame of the job at a place goes from one state into another.
pub(crate) fn recount_at(places: &mut Vec<Place>, at: usize, old: FrameState, new: FrameState)
    requires { IfSome (held_in (slice_get places.old.items at)) (λ e. CanMove old new e.counts) }
    ensures items { places.new.items ≡ changed_at places.old.items at (with_held (with_moved old new)) }
    ensures capacity { vec_capacity places.new ≡ vec_capacity places.old }
{
    if at < places.len() {
        places[at].recount(old, new);
    }
}

/// The job at a place is paused, or resumed.
pub(crate) fn pause_at(places: &mut Vec<Place>, at: usize, paused: bool)
    ensures items { places.new.items ≡ changed_at places.old.items at (with_held (with_paused paused)) }
    ensures capacity { vec_capacity places.new ≡ vec_capacity places.old }
{
    if at < places.len() {
        places[at].pause(paused);
    }
}

/// The job at a place finishes by that number, with these counts.
pub(crate) fn finish_at(places: &mut Vec<Place>, at: usize, finish: u64, counts: Counts)
    ensures items { places.new.items ≡ changed_at places.old.items at (with_held (with_finish finish counts)) }
    ensures capacity { vec_capacity places.new ≡ vec_capacity places.old }
{
    if at < places.len() {
        places[at].finish(finish, counts);
    }
}

/// No job is at the place any more.
pub(crate) fn empty_at(places: &mut Vec<Place>, at: usize)
    ensures items { places.new.items ≡ changed_at places.old.items at emptied }
    ensures capacity { vec_capacity places.new ≡ vec_capacity places.old }
{
    if at < places.len() {
        places[at].empty();
    }
}

/// Closes the empty places up.
pub(crate) fn close_up(places: &mut Vec<Place>)
    ensures items { places.new.items ≡ filter is_taken places.old.items }
    ensures capacity { vec_capacity places.new ≡ vec_capacity places.old }
{
    places.retain(|place| place.held.is_some());
}

impl Place {
    fn mark(&mut self, layer: u32, position: u32, waits: bool)
        ensures { self.new ≡ with_held (with_mark layer position waits) self.old }
    {
        if let Some(entry) = &mut self.held {
            entry.mark(layer, position, waits);
        }
    }

    fn recount(&mut self, old: FrameState, new: FrameState)
        requires { IfSome self.old.held (λ e. CanMove old new e.counts) }
        ensures { self.new ≡ with_held (with_moved old new) self.old }
    {
        if let Some(entry) = &mut self.held {
            entry.recount(old, new);
        }
    }

    fn pause(&mut self, paused: bool)
        ensures { self.new ≡ with_held (with_paused paused) self.old }
    {
        if let Some(entry) = &mut self.held {
            entry.pause(paused);
        }
    }

    fn finish(&mut self, finish: u64, counts: Counts)
        ensures { self.new ≡ with_held (with_finish finish counts) self.old }
    {
        if let Some(entry) = &mut self.held {
            entry.finish(finish, counts);
        }
    }

    fn empty(&mut self)
        ensures { self.new ≡ emptied self.old }
    {
        self.held = None;
    }
}
