//! Placing a job.

ghost use Rattle.std.specs.Prelude.{◌≡◌, ◌≤◌, ◌+◌, ◌++◌, length, None, false};
ghost use Rattle.std.specs.List.{list_any};
ghost use Rattle.std.specs.Vec.{vec_capacity};
ghost use Rattle.farm_types.specs.Jobs.{frames_in, job_refusal, job_row, layer_row, layer_rows, limit_in, with_job};
ghost use Rattle.farm_types.specs.SpecLimits.{JobKeepsLimits};
ghost use Rattle.farm_types.specs.declared.limits.TheConstants.{MOST_LAYERS};
ghost use Rattle.job_book.specs.Book.{placing_of, with_new_job};
ghost use Rattle.job_book.specs.Layers.{spare_of};
ghost use Rattle.job_book.specs.Names.{is_named};

use crate::jobs::Jobs;
use crate::placement::placing::{JobSpare, Placing};
use crate::placement::put::{behind_last, put_layers};
use crate::reading::ready::put_ready;
use farm_types::{JobNo, JobRow, JobSpec, JobState, LayerRow, LayerSpec, LimitNo};
use job_entries::{Entry, all_waiting};

impl Jobs {
    /// Places a job that isn't refused where `check` said, with the memory that was reserved for it: its frames wait in the
    /// lowest free slots, layer by layer in range order. Says the job's number. It takes no memory.
    pub fn place(&mut self, spec: JobSpec, reserved: JobSpare, placing: Placing) -> JobNo
        requires limits { JobKeepsLimits spec }
        requires accepted { job_refusal self.old spec ≡ None }
        requires placing { placing ≡ placing_of self.old placing.show placing.limits spec }
        requires reserved { reserved ≡ spare_of spec }
        ensures book { self.new ≡ with_job self.old placing.show placing.limits spec }
        ensures job { result ≡ self.old.next_job }
    {
        self.leave_named(&spec.name);
        self.place_new(spec, reserved, placing)
    }

    // Places a job of a name that no job has.
    fn place_new(&mut self, spec: JobSpec, reserved: JobSpare, placing: Placing) -> JobNo
        requires limits { JobKeepsLimits spec }
        requires accepted { job_refusal self.old spec ≡ None }
        requires placing { placing ≡ placing_of self.old placing.show placing.limits spec }
        requires reserved { reserved ≡ spare_of spec }
        requires unnamed { list_any (is_named spec.name) self.old.jobs ≡ false }
        ensures book { self.new ≡ with_new_job self.old placing.show placing.limits spec }
        ensures job { result ≡ self.old.next_job }
    {
        let JobSpare {
            name,
            mut index,
            mut rows,
        } = reserved;
        let job = placing.job;
        let (row, layers) = taken_apart(spec, &placing);
        let places = placing.slots.as_slice();
        put_layers(&mut self.slots, places, job, layers.as_slice(), &mut index);
        self.lowest = behind_last(places);
        add_layers(&mut rows, job, placing.limits.as_slice(), layers);
        self.names.add(name, job);
        put_ready(&mut self.ready, &row);
        self.entries
            .add(Entry::make(row, all_waiting(placing.frames), rows, index));
        self.free -= placing.frames;
        job
    }
}

// The job's row and its layers, of the texts that were reserved for it.
fn taken_apart(spec: JobSpec, placing: &Placing) -> (JobRow, Vec<LayerSpec>)
    requires { placing.now.frames ≡ frames_in spec.layers }
    ensures row { result.0 ≡ job_row placing.now.job placing.now.show spec }
    ensures layers { result.1.items ≡ spec.layers }
{
    let row = JobRow {
        job: placing.job,
        name: spec.name,
        show: placing.show,
        facility: spec.facility,
        shot: spec.shot,
        user: spec.user,
        priority: spec.priority,
        max_retries: spec.max_retries,
        auto_eat: spec.auto_eat,
        paused: spec.paused,
        state: JobState::Pending,
        frames: placing.frames,
        finish: 0,
        eaten: 0,
        succeeded: 0,
    };
    (row, spec.layers.into_vec())
}

// The rows of a job's layers with these limits, behind the others.
fn add_layers(
    rows: &mut Vec<LayerRow>,
    job: JobNo,
    limits: &[Option<LimitNo>],
    layers: Vec<LayerSpec>,
)
    requires capacity { length rows.old.items + length layers.items ≤ vec_capacity rows.old }
    requires count { length layers.items ≤ MOST_LAYERS }
    ensures rows { rows.new.items ≡ rows.old.items ++ layer_rows job limits.now 0 layers.items }
    ensures capacity { vec_capacity rows.new ≡ vec_capacity rows.old }
{
    let mut place = 0;
    for layer in layers {
        let limit = limit_in(limits, place);
        rows.push_reserved(layer_row(job, place, limit, layer));
        place += 1;
    }
}

// The limit of the layer at a place, none past the last.
fn limit_in(limits: &[Option<LimitNo>], place: u32) -> Option<LimitNo>
    ensures { result ≡ limit_in limits.now place }
{
    match limits.get(place as usize) {
        None => None,
        Some(limit) => *limit,
    }
}

// The row of a layer, whose texts are moved.
fn layer_row(job: JobNo, place: u32, limit: Option<LimitNo>, layer: LayerSpec) -> LayerRow
    ensures { result ≡ layer_row job place limit layer }
{
    LayerRow {
        job,
        place,
        name: layer.name,
        range: layer.range,
        command: layer.command,
        cores: layer.cores,
        memory: layer.memory,
        tags: layer.tags,
        limit,
    }
}
