//! Writing a request.

ghost use Rattle.std.specs.Prelude.{◌≡◌, IfOk, OnOk};
ghost use Rattle.farm_lines.specs.RequestText.{request_data, request_text, tick_line};
ghost use Rattle.object_writer.specs.Tokens.{added, tokens_of};

use crate::requests::boot::write_boot;
use crate::requests::depend::write_depend;
use crate::requests::frame::write_frame;
use crate::requests::limit::write_limit;
use crate::requests::list::write_query;
use crate::requests::name::{
    pause_word, write_alloc, write_drop, write_job, write_lock, write_name,
};
use crate::requests::report::write_report;
use crate::requests::sub::write_sub;
use crate::requests::submit::write_submit;
use farm_lines::Request;
use farm_types::Text;
use object_writer::ObjectWriter;
use std::alloc::{AllocError, Global};

/// The request as compact JSON, its keys in byte order, without a newline.
#[tactic(auto, using(object_writer::proofs::Printed::data_printed))]
pub fn write_request(alloc: Global, request: &Request) -> Result<Text, AllocError>
    ensures { IfOk result (λ text. text ≡ request_text request.now) }
{
    let mut out = ObjectWriter::new(alloc)?;
    write_object(alloc, &mut out, request)?;
    Ok(out.into_text())
}

// The request as an object, its keys in byte order.
fn write_object(alloc: Global, out: &mut ObjectWriter, request: &Request) -> Result<(), AllocError>
    ensures { OnOk result (out.new ≡ added out.old (tokens_of (request_data request.now))) }
{
    match request {
        Request::Show { name } => write_name(out, "show", name.as_str()),
        Request::Alloc { facility, tag } => {
            write_alloc(alloc, out, facility.as_str(), tag.as_str())
        }
        Request::Sub(line) => write_sub(out, line),
        Request::Limit { name, most } => write_limit(out, name.as_str(), *most),
        Request::Boot(line) => write_boot(out, line),
        Request::Report(report) => write_report(out, report),
        Request::Lock { host, lock } => write_lock(out, host.as_str(), *lock),
        Request::Submit(spec) => write_submit(alloc, out, spec),
        Request::Depend(spec) => write_depend(out, spec),
        Request::Drop { depend } => write_drop(out, *depend),
        Request::Pause { job, paused } => write_job(out, pause_word(*paused), job.as_str()),
        Request::KillJob { job } => write_job(out, "kill", job.as_str()),
        Request::KillFrame(place) => write_frame(out, "kill", place),
        Request::EatFrame(place) => write_frame(out, "eat", place),
        Request::RetryFrame(place) => write_frame(out, "retry", place),
        Request::Tick => write_tick(out),
        Request::List(query) => write_query(out, query),
    }
}

// That time be seen to have passed.
#[tactic(auto, unfolding(farm_lines::specs::RequestText::tick_line))]
fn write_tick(out: &mut ObjectWriter) -> Result<(), AllocError>
    ensures { OnOk result (out.new ≡ added out.old (tokens_of tick_line)) }
{
    out.begin_object()?;
    out.text("op", "tick")?;
    out.end_object()
}
