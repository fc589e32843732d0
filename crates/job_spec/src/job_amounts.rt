//! Judging the amounts of a job.

ghost use Rattle.std.specs.Prelude.{◌≡◌, IfOk};
ghost use Rattle.farm_lines.specs.Spec.{job_of};
ghost use Rattle.farm_types.specs.SpecLimits.{JobKeepsLimits};
ghost use Rattle.job_spec.specs.SpecResults.{GivesSpec};

use crate::amounts::within;
use crate::fault::SpecFault;
use crate::layer_amounts::judge_layers;
use farm_lines::JobForm;
use farm_types::{JobSpec, MOST_FRAMES, MOST_LAYERS, MOST_PRIORITY, MOST_RETRIES};
use std::alloc::Global;

/// A job's amounts in order: priority, retries, the number of layers, each layer's, and the number of frames.
#[tactic(auto, unfolding(farm_lines::specs::Spec::job_of))]
pub fn judge_job(alloc: Global, form: JobForm) -> Result<JobSpec, SpecFault>
    ensures gives { GivesSpec result (job_of form) }
    ensures limits { IfOk result JobKeepsLimits }
{
    within(
        alloc,
        "priority",
        1,
        u128::from(MOST_PRIORITY),
        u128::from(form.priority),
    )?;
    within(
        alloc,
        "max_retries",
        0,
        u128::from(MOST_RETRIES),
        u128::from(form.max_retries),
    )?;
    within(
        alloc,
        "layers",
        1,
        u128::from(MOST_LAYERS),
        form.layers.len() as u128,
    )?;
    let layers = judge_layers(alloc, form.layers.as_slice())?;
    within(
        alloc,
        "layers",
        1,
        u128::from(MOST_FRAMES),
        layers.count_frames(),
    )?;
    Ok(JobSpec {
        name: form.name,
        show: form.show,
        facility: form.facility,
        shot: form.shot,
        user: form.user,
        priority: form.priority as u32,
        max_retries: form.max_retries as u32,
        auto_eat: form.auto_eat,
        paused: form.paused,
        layers,
        depends: form.depends,
    })
}
