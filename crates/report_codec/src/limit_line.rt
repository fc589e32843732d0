//! The line that sets a limit, and its reply.

ghost use Rattle.std.specs.Prelude.{◌≡◌, OnOk};
ghost use Rattle.cue_json.specs.View.{members_view};
ghost use Rattle.cue_json.specs.Fields.{Gives};
ghost use Rattle.farm_lines.specs.Reply.{limit_data};
ghost use Rattle.farm_lines.specs.Request.{asks_limit, judged, limit_form_at, limit_line_at, limit_line_of};
ghost use Rattle.job_spec.specs.SpecResults.{GivesSpec};
ghost use Rattle.report_codec.specs.Reads.{IsRequest};
ghost use Rattle.object_writer.specs.Tokens.{added, tokens_of};

use crate::read_fields::read_number;
use cue_json::{FieldFault, Map};
use farm_lines::{LimitForm, LimitLine, Request, RequestFault, read_name};
use farm_types::MOST_RUNNING;
use job_spec::{SpecFault, within};
use object_writer::ObjectWriter;
use std::alloc::{AllocError, Global};

/// The limit that the object sets, or its first fault. All forms come before the amount.
pub fn read_limit(alloc: Global, object: &Map) -> Result<Request, RequestFault>
    ensures { IsRequest result (judged asks_limit (limit_line_at (members_view object.now.items))) }
{
    let form = read_form(alloc, object)?;
    let LimitLine { name, most } = judge(alloc, form)?;
    Ok(Request::Limit { name, most })
}

// A limit's fields in order, and no others.
#[tactic(auto, unfolding(farm_lines::specs::Request::limit_form_at))]
fn read_form(alloc: Global, object: &Map) -> Result<LimitForm, FieldFault>
    ensures { Gives (λ form. form) result (limit_form_at (members_view object.now.items)) }
{
    let name = read_name(alloc, object, "name")?;
    let most = read_number(alloc, object, "most")?;
    cue_json::no_others(alloc, object, &["most", "name", "op"])?;
    Ok(LimitForm { name, most })
}

// The amount: how many frames run at most.
#[tactic(auto, unfolding(farm_lines::specs::Request::limit_line_of))]
fn judge(alloc: Global, form: LimitForm) -> Result<LimitLine, SpecFault>
    ensures { GivesSpec result (limit_line_of form) }
{
    within(
        alloc,
        "most",
        0,
        u128::from(MOST_RUNNING),
        u128::from(form.most),
    )?;
    Ok(LimitLine {
        name: form.name,
        most: form.most as u32,
    })
}

/// The reply to it: how many frames run at most in the limit, and how many run.
#[tactic(auto, unfolding(farm_lines::specs::Reply::limit_data))]
pub fn write_limit(out: &mut ObjectWriter, most: u32, running: u32) -> Result<(), AllocError>
    ensures { OnOk result (out.new ≡ added out.old (tokens_of (limit_data most running))) }
{
    out.begin_object()?;
    out.whole("most", u64::from(most))?;
    out.truth("ok", true)?;
    out.whole("running", u64::from(running))?;
    out.end_object()
}
