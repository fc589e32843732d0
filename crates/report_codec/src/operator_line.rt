//! The lines by which operators pause, resume and kill jobs, and kill, eat and retry frames, and the reply to the last four.

ghost use Rattle.std.specs.Prelude.{◌≡◌, OnOk};
ghost use Rattle.cue_json.specs.View.{members_view};
ghost use Rattle.cue_json.specs.Fields.{Gives};
ghost use Rattle.farm_lines.specs.declared.request.Request.TheVariants as request;
ghost use Rattle.farm_lines.specs.OperatorLines.{asks_pause, frame_at, frame_of_job_at, job_at, kill_at, killed_at, names_frame};
ghost use Rattle.farm_lines.specs.Reply.{ended_data};
ghost use Rattle.farm_lines.specs.Request.{asked, asks_kill};
ghost use Rattle.report_codec.specs.Reads.{IsRequest};
ghost use Rattle.object_writer.specs.Tokens.{added, tokens_of};

use cue_json::{FieldFault, Map};
use farm_lines::{LEAST_FRAME, MOST_FRAME, Request, RequestFault, read_name};
use farm_types::{FramePlace, Text};
use object_writer::ObjectWriter;
use std::alloc::{AllocError, Global};

/// The job that the object pauses or resumes, or its first fault.
pub fn read_pause(alloc: Global, object: &Map, paused: bool) -> Result<Request, RequestFault>
    ensures { IsRequest result (asked (asks_pause paused) (job_at (members_view object.now.items))) }
{
    let job = job(alloc, object)?;
    Ok(Request::Pause { job, paused })
}

/// The frame that the object eats, or its first fault.
pub fn read_eat(alloc: Global, object: &Map) -> Result<Request, RequestFault>
    ensures { IsRequest result (asked request.EatFrame (frame_at (members_view object.now.items))) }
{
    let place = frame(alloc, object)?;
    Ok(Request::EatFrame(place))
}

/// The frame that the object retries, or its first fault.
pub fn read_retry(alloc: Global, object: &Map) -> Result<Request, RequestFault>
    ensures { IsRequest result (asked request.RetryFrame (frame_at (members_view object.now.items))) }
{
    let place = frame(alloc, object)?;
    Ok(Request::RetryFrame(place))
}

/// The frame or the job that the object kills, or its first fault.
pub fn read_kill(alloc: Global, object: &Map) -> Result<Request, RequestFault>
    ensures { IsRequest result (asked asks_kill (kill_at (members_view object.now.items))) }
{
    let killed = kill(alloc, object)?;
    Ok(killed)
}

// The job's name, and no other field.
#[tactic(auto, unfolding(farm_lines::specs::OperatorLines::job_at))]
fn job(alloc: Global, object: &Map) -> Result<Text, FieldFault>
    ensures { Gives (λ job. job) result (job_at (members_view object.now.items)) }
{
    let job = read_name(alloc, object, "job")?;
    cue_json::no_others(alloc, object, &["job", "op"])?;
    Ok(job)
}

// The frame by its job, its layer and its number, and no other field.
#[tactic(auto, unfolding(farm_lines::specs::OperatorLines::frame_at))]
fn frame(alloc: Global, object: &Map) -> Result<FramePlace, FieldFault>
    ensures { Gives (λ place. place) result (frame_at (members_view object.now.items)) }
{
    let job = read_name(alloc, object, "job")?;
    frame_of(alloc, object, job)
}

// The frame of the job, by its layer and its number.
#[tactic(auto, unfolding(farm_lines::specs::OperatorLines::frame_of_job_at))]
fn frame_of(alloc: Global, object: &Map, job: Text) -> Result<FramePlace, FieldFault>
    ensures { Gives (λ place. place) result (frame_of_job_at job (members_view object.now.items)) }
{
    let layer = read_name(alloc, object, "layer")?;
    let frame = cue_json::signed(alloc, object, "frame", LEAST_FRAME, MOST_FRAME)?;
    cue_json::no_others(alloc, object, &["frame", "job", "layer", "op"])?;
    Ok(FramePlace {
        job,
        layer,
        frame: frame as i32,
    })
}

// The job's name, and with it a frame where a field of one is there.
#[tactic(auto, unfolding(farm_lines::specs::OperatorLines::kill_at))]
fn kill(alloc: Global, object: &Map) -> Result<Request, FieldFault>
    ensures { Gives (λ killed. killed) result (kill_at (members_view object.now.items)) }
{
    let job = read_name(alloc, object, "job")?;
    let framed = names_frame(object);
    killed(alloc, object, job, framed)
}

// The job, or a frame of it.
fn killed(alloc: Global, object: &Map, job: Text, framed: bool) -> Result<Request, FieldFault>
    ensures { Gives (λ killed. killed) result (killed_at framed job (members_view object.now.items)) }
{
    if framed {
        let place = frame_of(alloc, object, job)?;
        return Ok(Request::KillFrame(place));
    }
    cue_json::no_others(alloc, object, &["job", "op"])?;
    Ok(Request::KillJob { job })
}

// Whether a field of a frame is there.
fn names_frame(object: &Map) -> bool
    ensures { result ≡ names_frame (members_view object.now.items) }
{
    cue_json::has(object, "layer") || cue_json::has(object, "frame")
}

/// The reply: how many attempts ended.
#[tactic(auto, unfolding(farm_lines::specs::Reply::ended_data))]
pub fn write_ended(out: &mut ObjectWriter, ended: u32) -> Result<(), AllocError>
    ensures { OnOk result (out.new ≡ added out.old (tokens_of (ended_data ended))) }
{
    out.begin_object()?;
    out.whole("ended", u64::from(ended))?;
    out.truth("ok", true)?;
    out.end_object()
}
