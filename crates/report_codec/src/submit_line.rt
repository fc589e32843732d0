//! The submit of a job, and its reply.

ghost use Rattle.std.specs.Prelude.{◌≡◌, OnOk};
ghost use Rattle.cue_json.specs.View.{members_view};
ghost use Rattle.farm_lines.specs.declared.request.Request.TheVariants as request;
ghost use Rattle.farm_lines.specs.Reply.{submit_data};
ghost use Rattle.farm_lines.specs.Request.{judged, submit_at};
ghost use Rattle.report_codec.specs.Reads.{IsRequest};
ghost use Rattle.object_writer.specs.Tokens.{added, tokens_of};

use cue_json::Map;
use farm_lines::{Request, RequestFault};
use job_spec::{SpecFault, read_spec};
use object_writer::ObjectWriter;
use std::alloc::{AllocError, Global};

/// The job that the object asks to be submitted, or its first fault. Each fault of a form, that of a key beside `job` too, comes before those of
/// the job's amounts.
#[tactic(auto, unfolding(farm_lines::specs::Request::submit_at))]
pub fn read_submit(alloc: Global, object: &Map) -> Result<Request, RequestFault>
    ensures { IsRequest result (judged request.Submit (submit_at (members_view object.now.items))) }
{
    let job = cue_json::object(alloc, object, "job")?;
    // Where memory ran out, whether the form has a fault isn't known, so that is told at once, as a fault of the form is.
    let judged = match read_spec(alloc, job) {
        Err(SpecFault::Field { fault }) => return Err(RequestFault::from(fault)),
        Err(SpecFault::NoMemory) => return Err(RequestFault::NoMemory),
        judged => judged,
    };
    cue_json::no_others(alloc, object, &["job", "op"])?;
    Ok(Request::Submit(judged?))
}

/// The reply to a submit: how many frames the job has, and its name.
#[tactic(auto, unfolding(farm_lines::specs::Reply::submit_data))]
pub fn write_submitted(out: &mut ObjectWriter, frames: u32, job: &str) -> Result<(), AllocError>
    ensures { OnOk result (out.new ≡ added out.old (tokens_of (submit_data frames job.now))) }
{
    out.begin_object()?;
    out.whole("frames", u64::from(frames))?;
    out.text("job", job)?;
    out.truth("ok", true)?;
    out.end_object()
}
