//! Reading the fields of a job.

ghost use Rattle.cue_json.specs.View.{members_view};
ghost use Rattle.cue_json.specs.Fields.{Gives};
ghost use Rattle.farm_lines.specs.Spec.{job_form_at};

use crate::depend_line::read_depends;
use crate::layer_form::LayerReader;
use crate::{defaults, words};
use cue_json::{FieldFault, Map};
use farm_lines::{JobForm, read_list, read_name};
use std::alloc::Global;

/// A job's fields in order, and no others. In each depend the job itself waits.
#[tactic(auto, unfolding(farm_lines::specs::Spec::job_form_at))]
pub fn read_job(alloc: Global, object: &Map) -> Result<JobForm, FieldFault>
    ensures { Gives (λ job. job) result (job_form_at (members_view object.now.items)) }
{
    let name = read_name(alloc, object, "name")?;
    let show = read_name(alloc, object, "show")?;
    let facility = words::facility(alloc, object, "facility")?;
    let shot = defaults::name(alloc, object, "shot")?;
    let user = defaults::name(alloc, object, "user")?;
    let priority = defaults::number(alloc, object, "priority", 100)?;
    let max_retries = defaults::number(alloc, object, "max_retries", 3)?;
    let auto_eat = defaults::flag(alloc, object, "auto_eat")?;
    let paused = defaults::flag(alloc, object, "paused")?;
    let layers = read_list(alloc, object, "layers", &LayerReader)?;
    let depends = read_depends(alloc, object, "depends", &name)?;
    cue_json::no_others(
        alloc,
        object,
        &[
            "auto_eat",
            "depends",
            "facility",
            "layers",
            "max_retries",
            "name",
            "paused",
            "priority",
            "shot",
            "show",
            "user",
        ],
    )?;
    Ok(JobForm {
        name,
        show,
        facility,
        shot,
        user,
        priority,
        max_retries,
        auto_eat,
        paused,
        layers,
        depends,
    })
}
