//! The fields of depends, and of groups that are met.

ghost use Rattle.std.specs.Prelude.{◌≡◌, OnOk};
ghost use Rattle.cue_json.specs.View.{members_view};
ghost use Rattle.cue_json.specs.Fields.{Gives};
ghost use Rattle.row_codec.specs.RowFields.{depend_fields, met_fields};
ghost use Rattle.row_codec.specs.RowReading.{depend_at, frame_if, layer_if, target_at, waiter_at};
ghost use Rattle.object_writer.specs.Tokens.{added, object_tokens};

use crate::members::{write_signed_if, write_text_if};
use crate::read_fields::{read_i32, read_text, read_u32};
use cue_json::{FieldFault, Map};
use farm_types::{DependEnd, DependKind, DependNo, DependRow, JobNo, Text};
use object_writer::ObjectWriter;
use state_names::{
    kind_word, names_frame, names_layer, names_target_frame, names_target_layer, read_word,
};
use std::alloc::{AllocError, Global};

/// A depend, as an object: the fields that its ends have.
pub fn write_depend(out: &mut ObjectWriter, row: &DependRow) -> Result<(), AllocError>
    ensures { OnOk result (out.new ≡ added out.old (object_tokens (depend_fields row.now))) }
{
    out.begin_object()?;
    out.truth("any", row.any)?;
    write_signed_if(out, "frame", row.waiter.frame)?;
    out.job("job", row.waiter.job)?;
    out.text("kind", kind_word(row.kind))?;
    write_text_if(out, "layer", &row.waiter.layer)?;
    out.truth("met_all", row.met_all)?;
    write_signed_if(out, "on_frame", row.target.frame)?;
    out.job("on_job", row.target.job)?;
    write_text_if(out, "on_layer", &row.target.layer)?;
    out.end_object()
}

/// A group that is met, as an object.
#[tactic(auto, unfolding(crate::specs::RowFields::met_fields))]
pub fn write_met(out: &mut ObjectWriter) -> Result<(), AllocError>
    ensures { OnOk result (out.new ≡ added out.old (object_tokens met_fields)) }
{
    out.begin_object()?;
    out.truth("met", true)?;
    out.end_object()
}

/// The depend of that number that the object's fields say: those that its kind has.
#[tactic(auto, unfolding(crate::specs::RowReading::depend_at))]
pub fn read_depend(alloc: Global, depend: DependNo, object: &Map) -> Result<DependRow, FieldFault>
    ensures { Gives (λ row. row) result (depend_at depend (members_view object.now.items)) }
{
    let any = cue_json::flag(alloc, object, "any")?;
    let kind = read_word(alloc, object, "kind")?;
    let met_all = cue_json::flag(alloc, object, "met_all")?;
    let waiter = read_waiter(alloc, object, kind)?;
    let target = read_target(alloc, object, kind)?;
    Ok(DependRow {
        depend,
        kind,
        any,
        met_all,
        waiter,
        target,
    })
}

// The end that waits.
#[tactic(auto, unfolding(crate::specs::RowReading::waiter_at))]
fn read_waiter(alloc: Global, object: &Map, kind: DependKind) -> Result<DependEnd, FieldFault>
    ensures { Gives (λ end. end) result (waiter_at kind (members_view object.now.items)) }
{
    let job = read_u32(alloc, object, "job")?;
    let layer = read_layer(alloc, object, "layer", names_layer(kind))?;
    let frame = read_frame(alloc, object, "frame", names_frame(kind))?;
    Ok(DependEnd {
        job: JobNo(job),
        layer,
        frame,
    })
}

// The end that is waited for.
#[tactic(auto, unfolding(crate::specs::RowReading::target_at))]
fn read_target(alloc: Global, object: &Map, kind: DependKind) -> Result<DependEnd, FieldFault>
    ensures { Gives (λ end. end) result (target_at kind (members_view object.now.items)) }
{
    let job = read_u32(alloc, object, "on_job")?;
    let layer = read_layer(alloc, object, "on_layer", names_target_layer(kind))?;
    let frame = read_frame(alloc, object, "on_frame", names_target_frame(kind))?;
    Ok(DependEnd {
        job: JobNo(job),
        layer,
        frame,
    })
}

// The layer's name in the field, where one is named.
fn read_layer(
    alloc: Global,
    object: &Map,
    field: &str,
    is_named: bool,
) -> Result<Option<Text>, FieldFault>
    ensures { Gives (λ layer. layer) result (layer_if is_named field.now (members_view object.now.items)) }
{
    if is_named {
        Ok(Some(read_text(alloc, object, field)?))
    } else {
        Ok(None)
    }
}

// The frame's number in the field, where one is named.
fn read_frame(
    alloc: Global,
    object: &Map,
    field: &str,
    is_named: bool,
) -> Result<Option<i32>, FieldFault>
    ensures { Gives (λ frame. frame) result (frame_if is_named field.now (members_view object.now.items)) }
{
    if is_named {
        Ok(Some(read_i32(alloc, object, field)?))
    } else {
        Ok(None)
    }
}
