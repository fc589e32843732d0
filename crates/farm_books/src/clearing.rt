//! The frames of a job that finishes aren't done any more: their slots are to be free.

ghost use Rattle.std.specs.Prelude.{◌≡◌, ◌==◌, true};
ghost use Rattle.std.specs.List.{list_all};
ghost use Rattle.farm_types.specs.Kept.{EachOnce, is_kept_slot};
ghost use Rattle.farm_books.specs.Books.{depends_of, with_depends};
ghost use Rattle.farm_books.specs.Cleared.{IsCleared, is_in_layer, is_in_layers, is_listed, undone};

use crate::books::Books;
use depend_book::Depends;
use farm_types::{JobNo, LayerRow, Slot};
use job_book::Jobs;

impl Books {
    /// The frames of the job aren't done any more, as the depends see it: their slots are to be free.
    pub fn clear_job(&mut self, job: JobNo)
        requires kept { list_all (is_kept_slot self.old.farm.layers) self.old.farm.slots ≡ true }
        requires once { EachOnce self.old.farm.slots }
        ensures { self.new ≡ with_depends self.old (undone job self.old.farm.slots (depends_of self.old)) }
    {
        clear_frames(&mut self.depends, &self.jobs, job);
    }
}

// The frames of the job aren't done any more.
fn clear_frames(depends: &mut Depends, jobs: &Jobs, job: JobNo)
    requires kept { list_all (is_kept_slot jobs.now.layers) jobs.now.slots ≡ true }
    requires once { EachOnce jobs.now.slots }
    ensures { depends.new ≡ undone job jobs.now.slots depends.old }
{
    clear_layers(depends, jobs, job, jobs.layers_of(job));
}

// The frames of these layers of the job aren't done any more.
fn clear_layers(depends: &mut Depends, jobs: &Jobs, job: JobNo, layers: &[LayerRow])
    requires { EachOnce jobs.now.slots }
    ensures { IsCleared (is_in_layers jobs.now.slots job layers.now) depends.old depends.new }
{
    for layer in layers {
        clear_layer(depends, jobs, job, layer.place);
    }
}

// The frames of the job's layer at that place aren't done any more.
fn clear_layer(depends: &mut Depends, jobs: &Jobs, job: JobNo, place: u32)
    requires { EachOnce jobs.now.slots }
    ensures { IsCleared (is_in_layer jobs.now.slots job place) depends.old depends.new }
{
    clear_slots(depends, jobs.layer_slots(job, place));
}

// The frames in the slots aren't done any more.
fn clear_slots(depends: &mut Depends, slots: &[Slot])
    ensures { IsCleared (is_listed slots.now) depends.old depends.new }
{
    for slot in slots {
        clear_slot(depends, *slot);
    }
}

// The frame in the slot isn't done any more.
fn clear_slot(depends: &mut Depends, slot: Slot)
    ensures { IsCleared (λ n. slot == n) depends.old depends.new }
{
    depends.kept();
    depends.set_done(slot, false);
}
