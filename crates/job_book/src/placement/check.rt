//! Whether a job can be placed.

ghost use Rattle.std.specs.Prelude.{◌≡◌, option_map, bytes_eq, if◌then◌else◌, Some, None, []};
ghost use Rattle.std.specs.List.{list_any};
ghost use Rattle.farm_types.specs.Faults.{Refuses};
ghost use Rattle.farm_types.specs.Jobs.{frames_in, is_pending_named, repeated_name, room_refusal};
ghost use Rattle.farm_types.specs.Kept.{is_of_pending};
ghost use Rattle.farm_types.specs.SpecLimits.{JobKeepsLimits};
ghost use Rattle.farm_types.specs.declared.refusal.Refusal.TheVariants as refusal;
ghost use Rattle.job_book.specs.Book.{Checks};

use crate::jobs::Jobs;
use crate::placement::placing::Placing;
use farm_types::{
    Counted, FarmFault, Items, JobNo, JobSpec, LAST_JOB, LayerSpec, LimitNo, Refusal, ShowNo, Text,
};
use job_entries::Entries;
use std::alloc::Global;

impl Jobs {
    /// Where a job of that show would be placed, its layers with these limits, or its first refusal: a pending job of its name, a
    /// layer's name that stands twice, fewer free slots than it has frames, no number left for a job. It changes nothing.
    pub fn check(
        &self,
        alloc: Global,
        spec: &JobSpec,
        show: ShowNo,
        limits: Items<Option<LimitNo>>,
    ) -> Result<Placing, FarmFault>
        requires { JobKeepsLimits spec.now }
        ensures { Checks self.now show limits spec.now result }
    {
        self.check_name(alloc, &spec.name)?;
        check_layers(alloc, spec.layers.as_slice())?;
        let frames = spec.layers.count_frames() as u32;
        self.check_left(spec, frames)?;
        Ok(Placing {
            job: JobNo(self.entries.next() as u32),
            show,
            limits,
            slots: self.free_slots(alloc, frames)?,
            frames,
        })
    }

    // Refuses the name of a pending job.
    fn check_name(&self, alloc: Global, name: &Text) -> Result<(), FarmFault>
        ensures { Refuses (if list_any (is_pending_named name.now) self.now.jobs then Some (refusal.Exists name.now) else None) result }
    {
        if self.is_pending_named(name) {
            return Err(FarmFault::existing(alloc, name));
        }
        Ok(())
    }

    // Whether a pending job has the name.
    fn is_pending_named(&self, name: &Text) -> bool
        ensures { result ≡ list_any (is_pending_named name.now) self.now.jobs }
    {
        match self.names.get(name.as_str()) {
            None => false,
            Some(job) => is_pending_in(&self.entries, job),
        }
    }

    // Refuses a job that has more frames than there are free slots, and one for which no number is left.
    fn check_left(&self, spec: &JobSpec, frames: u32) -> Result<(), FarmFault>
        requires { frames ≡ frames_in spec.now.layers }
        ensures { Refuses (room_refusal self.now spec.now) result }
    {
        if self.free < frames {
            return Err(FarmFault::Refused {
                why: Refusal::FarmFull { free: self.free },
            });
        }
        if self.entries.next() > u64::from(LAST_JOB) {
            return Err(FarmFault::full(u64::from(LAST_JOB), Counted::Jobs));
        }
        Ok(())
    }
}

/// Whether the job of that number is there and pending.
pub(crate) fn is_pending_in(entries: &Entries, job: JobNo) -> bool
    ensures { result ≡ is_of_pending entries.now.rows job }
{
    match entries.row(job) {
        None => false,
        Some(row) => row.state.is_pending(),
    }
}

// Refuses layers of which two have one name.
fn check_layers(alloc: Global, layers: &[LayerSpec]) -> Result<(), FarmFault>
    ensures { Refuses (option_map refusal.Exists (repeated_name [] layers.now)) result }
{
    for (place, layer) in layers.iter().enumerate() {
        if has_name(&layers[..place], &layer.name) {
            return Err(FarmFault::existing(alloc, &layer.name));
        }
    }
    Ok(())
}

// Whether one of the layers has the name.
fn has_name(layers: &[LayerSpec], name: &Text) -> bool
    ensures { result ≡ list_any (λ layer. bytes_eq name.now layer.name) layers.now }
{
    layers.iter().any(|layer| name.is(layer.name.as_str()))
}
