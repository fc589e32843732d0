//! Changes of the jobs of the book.

ghost use Rattle.std.specs.Prelude.{ℕ, ◌≡◌, ◌<◌, ◌≤◌, ◌==◌, length, map, true, false, IfSome};
ghost use Rattle.std.specs.List.{list_all, list_any};
ghost use Rattle.farm_types.specs.Farm.{changed_at};
ghost use Rattle.farm_types.specs.Operators.{paused_row};
ghost use Rattle.farm_types.specs.Rising.{IsRising};
ghost use Rattle.farm_types.specs.declared.limits.TheConstants.{LAST_JOB};
ghost use Rattle.std.specs.Vec.{vec_capacity};
ghost use Rattle.job_entries.specs.declared.entries.TheConstants.{MOST_PLACES};
ghost use Rattle.job_entries.specs.Counting.{CanMove};
ghost use Rattle.job_entries.specs.Entries.{IsAt, are_layers, counts_in, held, is_held_at, layer_position, place_key};
ghost use Rattle.job_entries.specs.Entries.{with_end, with_entry, with_moved_in, without_row};
ghost use Rattle.job_index.specs.Places.{marked};
ghost use Rattle.job_index.specs.declared.limits.TheConstants.{MOST_JOBS};

use crate::counts::Counts;
use crate::entries::{At, Entries, MOST_PLACES, Place};
use crate::entry::Entry;
use crate::places::{close_up, empty_at, finish_at, mark_at, pause_at, recount_at};
use farm_types::{FrameState, JobNo};

impl Entries {
    /// One more job, of the next number, behind the others. It takes no memory.
    pub fn add(&mut self, entry: Entry)
        requires number { entry.row.job ≡ self.old.next }
        requires left { self.old.next ≤ LAST_JOB }
        requires layers { are_layers entry.row.job 0 entry.layers ≡ true }
        requires index { length entry.index ≡ length entry.layers }
        requires few { length self.old.rows < MOST_JOBS }
        ensures { self.new ≡ with_entry entry self.new.numbers self.old }
    {
        make_room(&mut self.places);
        self.places.push_reserved(Place {
            job: JobNo(self.next as u32),
            held: Some(entry),
        });
        self.next += 1;
    }

    /// A frame of the job at a place goes from one state into another.
    pub fn recount(&mut self, at: &At, old: FrameState, new: FrameState)
        requires at { IsAt at.now self.old.numbers }
        requires can { IfSome (counts_in at.now.job self.old) (CanMove old new) }
        ensures { self.new ≡ with_moved_in at.now.job old new self.old }
    {
        recount_at(&mut self.places, at.place, old, new);
    }

    /// Whether a frame of the job at a place waits is noted.
    pub fn mark(&mut self, at: &At, layer: u32, position: u32, waits: bool)
        requires { IsAt at.now self.old.numbers }
        ensures { self.new ≡ record self.old { index = changed_at self.old.index (layer_position at.now.job layer self.old.layers) (marked position waits) } }
    {
        mark_at(&mut self.places, at.place, layer, position, waits);
    }

    /// The job at a place is paused, or resumed.
    pub fn pause(&mut self, at: &At, paused: bool)
        requires { IsAt at.now self.old.numbers }
        ensures { self.new ≡ record self.old { rows = map (paused_row at.now.job paused) self.old.rows } }
    {
        pause_at(&mut self.places, at.place, paused);
    }

    /// The job at a place finishes by that number, with these counts of its frames: it has no layers and no frames any more.
    pub fn finish(&mut self, at: &At, finish: u64, counts: Counts)
        requires { IsAt at.now self.old.numbers }
        ensures { self.new ≡ with_end at.now.job finish counts self.old }
    {
        finish_at(&mut self.places, at.place, finish, counts);
    }

    /// The job at a place leaves. It has no layers.
    pub fn leave(&mut self, at: &At)
        requires at { IsAt at.now self.old.numbers }
        requires none { list_any (λ l. l.job == at.now.job) self.old.layers ≡ false }
        ensures { self.new ≡ without_row at.now.job self.old }
    {
        empty_at(&mut self.places, at.place);
    }
}

// Empty places are closed up where no place is left.
fn make_room(places: &mut Vec<Place>)
    requires { length (held places.old.items) < MOST_PLACES }
    ensures held { held places.new.items ≡ held places.old.items }
    ensures rise { (next : ℕ) → IsRising place_key 0 places.old.items next → IsRising place_key 0 places.new.items next }
    ensures each { list_all is_held_at places.old.items ≡ true → list_all is_held_at places.new.items ≡ true }
    ensures room { length places.new.items < MOST_PLACES }
    ensures capacity { vec_capacity places.new ≡ vec_capacity places.old }
{
    if places.len() < MOST_PLACES as usize {
        return;
    }
    close_up(places);
}
