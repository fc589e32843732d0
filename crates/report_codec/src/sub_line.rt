//! The line that sets a subscription, and its reply.

ghost use Rattle.std.specs.Prelude.{◌≡◌, OnOk};
ghost use Rattle.cue_json.specs.View.{members_view};
ghost use Rattle.cue_json.specs.Fields.{Gives};
ghost use Rattle.farm_lines.specs.declared.request.Request.TheVariants as request;
ghost use Rattle.farm_lines.specs.Reply.{sub_data};
ghost use Rattle.farm_lines.specs.Request.{judged, sub_form_at, sub_line_at, sub_line_of};
ghost use Rattle.job_spec.specs.SpecResults.{GivesSpec};
ghost use Rattle.report_codec.specs.Reads.{IsRequest};
ghost use Rattle.object_writer.specs.Tokens.{added, tokens_of};

use crate::read_fields::read_number;
use cue_json::{FieldFault, Map};
use farm_lines::{Request, RequestFault, SubForm, read_name, read_text};
use farm_types::{Cores, MOST_BURST, SubLine};
use job_spec::{SpecFault, within};
use object_writer::ObjectWriter;
use std::alloc::{AllocError, Global};

/// The subscription that the object sets, or its first fault. All forms come before the amounts.
pub fn read_sub(alloc: Global, object: &Map) -> Result<Request, RequestFault>
    ensures { IsRequest result (judged request.Sub (sub_line_at (members_view object.now.items))) }
{
    let form = read_form(alloc, object)?;
    let line = judge(alloc, form)?;
    Ok(Request::Sub(line))
}

// A subscription's fields in order, and no others.
#[tactic(auto, unfolding(farm_lines::specs::Request::sub_form_at))]
fn read_form(alloc: Global, object: &Map) -> Result<SubForm, FieldFault>
    ensures { Gives (λ form. form) result (sub_form_at (members_view object.now.items)) }
{
    let show = read_name(alloc, object, "show")?;
    let allocation = read_text(alloc, object, "alloc")?;
    let size = read_number(alloc, object, "size")?;
    let burst = read_number(alloc, object, "burst")?;
    cue_json::no_others(alloc, object, &["alloc", "burst", "op", "show", "size"])?;
    Ok(SubForm {
        show,
        alloc: allocation,
        size,
        burst,
    })
}

// The amounts in order: size, then burst.
#[tactic(auto, unfolding(farm_lines::specs::Request::sub_line_of))]
fn judge(alloc: Global, form: SubForm) -> Result<SubLine, SpecFault>
    ensures { GivesSpec result (sub_line_of form) }
{
    within(
        alloc,
        "size",
        0,
        u128::from(MOST_BURST),
        u128::from(form.size),
    )?;
    within(
        alloc,
        "burst",
        0,
        u128::from(MOST_BURST),
        u128::from(form.burst),
    )?;
    Ok(SubLine {
        show: form.show,
        alloc: form.alloc,
        size: Cores(form.size as u32),
        burst: Cores(form.burst as u32),
    })
}

/// The reply to it: the subscription's amounts, in hundredths of a core.
#[tactic(auto, unfolding(farm_lines::specs::Reply::sub_data))]
pub fn write_sub(
    out: &mut ObjectWriter,
    booked: Cores,
    burst: Cores,
    size: Cores,
) -> Result<(), AllocError>
    ensures { OnOk result (out.new ≡ added out.old (tokens_of (sub_data booked burst size))) }
{
    out.begin_object()?;
    out.cores("booked", booked)?;
    out.cores("burst", burst)?;
    out.truth("ok", true)?;
    out.cores("size", size)?;
    out.end_object()
}
