//! A host's boot, and its reply.

ghost use Rattle.std.specs.Prelude.{◌≡◌, OnOk};
ghost use Rattle.cue_json.specs.View.{members_view};
ghost use Rattle.cue_json.specs.Fields.{Gives};
ghost use Rattle.farm_lines.specs.declared.request.Request.TheVariants as request;
ghost use Rattle.farm_lines.specs.Reply.{boot_data};
ghost use Rattle.farm_lines.specs.Request.{boot_form_at, boot_line_at, boot_line_of, judged};
ghost use Rattle.job_spec.specs.SpecResults.{GivesSpec};
ghost use Rattle.report_codec.specs.Reads.{IsRequest};
ghost use Rattle.object_writer.specs.Tokens.{added, tokens_of};

use crate::read_fields::read_number;
use cue_json::{FieldFault, Map};
use farm_lines::{BootForm, Request, RequestFault, read_name, read_text};
use farm_types::{
    BootLine, Cores, Kb, LEAST_CORES, LEAST_MEMORY, MOST_CORES, MOST_MEMORY, MOST_TAGS,
};
use job_spec::{SpecFault, read_tags, within};
use object_writer::ObjectWriter;
use std::alloc::{AllocError, Global};

/// The boot that the object tells, or its first fault. All forms come before the amounts.
pub fn read_boot(alloc: Global, object: &Map) -> Result<Request, RequestFault>
    ensures { IsRequest result (judged request.Boot (boot_line_at (members_view object.now.items))) }
{
    let form = read_form(alloc, object)?;
    let line = judge(alloc, form)?;
    Ok(Request::Boot(line))
}

// A boot's fields in order, and no others.
#[tactic(auto, unfolding(farm_lines::specs::Request::boot_form_at))]
fn read_form(alloc: Global, object: &Map) -> Result<BootForm, FieldFault>
    ensures { Gives (λ form. form) result (boot_form_at (members_view object.now.items)) }
{
    let host = read_name(alloc, object, "host")?;
    let nonce = read_number(alloc, object, "nonce")?;
    let allocation = read_text(alloc, object, "alloc")?;
    let tags = read_tags(alloc, object, "tags")?;
    let cores = read_number(alloc, object, "cores")?;
    let memory = read_number(alloc, object, "memory")?;
    cue_json::no_others(
        alloc,
        object,
        &["alloc", "cores", "host", "memory", "nonce", "op", "tags"],
    )?;
    Ok(BootForm {
        host,
        nonce,
        alloc: allocation,
        tags,
        cores,
        memory,
    })
}

// The amounts in order: how many tags there are, then cores, then memory.
#[tactic(auto, unfolding(farm_lines::specs::Request::boot_line_of))]
fn judge(alloc: Global, form: BootForm) -> Result<BootLine, SpecFault>
    ensures { GivesSpec result (boot_line_of form) }
{
    within(
        alloc,
        "tags",
        0,
        u128::from(MOST_TAGS),
        form.tags.len() as u128,
    )?;
    within(
        alloc,
        "cores",
        u128::from(LEAST_CORES),
        u128::from(MOST_CORES),
        u128::from(form.cores),
    )?;
    within(
        alloc,
        "memory",
        u128::from(LEAST_MEMORY),
        u128::from(MOST_MEMORY),
        u128::from(form.memory),
    )?;
    Ok(BootLine {
        host: form.host,
        nonce: form.nonce,
        alloc: form.alloc,
        tags: form.tags,
        cores: Cores(form.cores as u32),
        memory: Kb(form.memory),
    })
}

/// The reply to it: the number of the boot, and the nonce that the host sent.
#[tactic(auto, unfolding(farm_lines::specs::Reply::boot_data))]
pub fn write_boot(out: &mut ObjectWriter, boot: u32, nonce: u64) -> Result<(), AllocError>
    ensures { OnOk result (out.new ≡ added out.old (tokens_of (boot_data boot nonce))) }
{
    out.begin_object()?;
    out.whole("boot", u64::from(boot))?;
    out.whole("nonce", nonce)?;
    out.truth("ok", true)?;
    out.end_object()
}
