//! The fields of jobs.

ghost use Rattle.std.specs.Prelude.{◌≡◌, OnOk};
ghost use Rattle.cue_json.specs.View.{members_view};
ghost use Rattle.cue_json.specs.Fields.{Gives};
ghost use Rattle.row_codec.specs.RowFields.{job_fields};
ghost use Rattle.row_codec.specs.RowReading.{job_at};
ghost use Rattle.object_writer.specs.Tokens.{added, object_tokens};

use crate::read_fields::{read_text, read_u16, read_u32, read_u64};
use cue_json::{FieldFault, Map};
use farm_types::{JobNo, JobRow, ShowNo};
use object_writer::ObjectWriter;
use state_names::{job_word, read_word};
use std::alloc::{AllocError, Global};

/// A job, as an object.
#[tactic(auto, unfolding(crate::specs::RowFields::job_fields))]
pub fn write_job(out: &mut ObjectWriter, row: &JobRow) -> Result<(), AllocError>
    ensures { OnOk result (out.new ≡ added out.old (object_tokens (job_fields row.now))) }
{
    out.begin_object()?;
    out.truth("auto_eat", row.auto_eat)?;
    out.number("eaten", row.eaten)?;
    out.text("facility", row.facility.as_str())?;
    out.whole("finish", row.finish)?;
    out.number("frames", row.frames)?;
    out.number("max_retries", row.max_retries)?;
    out.text("name", row.name.as_str())?;
    out.truth("paused", row.paused)?;
    out.number("priority", row.priority)?;
    out.text("shot", row.shot.as_str())?;
    out.show("show", row.show)?;
    out.text("state", job_word(row.state))?;
    out.number("succeeded", row.succeeded)?;
    out.text("user", row.user.as_str())?;
    out.end_object()
}

/// The job of that number that the object's fields say.
#[tactic(auto, unfolding(crate::specs::RowReading::job_at))]
pub fn read_job(alloc: Global, job: JobNo, object: &Map) -> Result<JobRow, FieldFault>
    ensures { Gives (λ row. row) result (job_at job (members_view object.now.items)) }
{
    let auto_eat = cue_json::flag(alloc, object, "auto_eat")?;
    let eaten = read_u32(alloc, object, "eaten")?;
    let facility = read_text(alloc, object, "facility")?;
    let finish = read_u64(alloc, object, "finish")?;
    let frames = read_u32(alloc, object, "frames")?;
    let max_retries = read_u32(alloc, object, "max_retries")?;
    let name = read_text(alloc, object, "name")?;
    let paused = cue_json::flag(alloc, object, "paused")?;
    let priority = read_u32(alloc, object, "priority")?;
    let shot = read_text(alloc, object, "shot")?;
    let show = read_u16(alloc, object, "show")?;
    let state = read_word(alloc, object, "state")?;
    let succeeded = read_u32(alloc, object, "succeeded")?;
    let user = read_text(alloc, object, "user")?;
    Ok(JobRow {
        job,
        name,
        show: ShowNo(show),
        facility,
        shot,
        user,
        priority,
        max_retries,
        auto_eat,
        paused,
        state,
        frames,
        finish,
        eaten,
        succeeded,
    })
}
