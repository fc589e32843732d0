//! Job specs from JSON objects.

ghost use Rattle.std.specs.Prelude.{IfOk};
ghost use Rattle.cue_json.specs.View.{members_view};
ghost use Rattle.farm_lines.specs.Spec.{spec_at};
ghost use Rattle.farm_types.specs.SpecLimits.{JobKeepsLimits};
ghost use Rattle.job_spec.specs.SpecResults.{GivesSpec};

use crate::fault::SpecFault;
use crate::job_amounts::judge_job;
use crate::job_form::read_job;
use cue_json::Map;
use farm_types::JobSpec;
use std::alloc::Global;

/// The job that the object says, or its first fault. The form of every field is tried first, in order; then
/// the amounts are: priority, retries, the number of layers, each layer's in order, and the number of frames.
#[tactic(auto, unfolding(farm_lines::specs::Spec::spec_at))]
pub fn read_spec(alloc: Global, value: &Map) -> Result<JobSpec, SpecFault>
    ensures gives { GivesSpec result (spec_at (members_view value.now.items)) }
    ensures limits { IfOk result JobKeepsLimits }
{
    let form = read_job(alloc, value)?;
    judge_job(alloc, form)
}
