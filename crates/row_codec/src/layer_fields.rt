//! The fields of layers and of limits.

ghost use Rattle.std.specs.Prelude.{◌≡◌, ◌≤◌, codes, OnOk};
ghost use Rattle.serde_json.specs.Data.{Members};
ghost use Rattle.cue_json.specs.View.{members_view};
ghost use Rattle.cue_json.specs.Fields.{Gives};
ghost use Rattle.row_codec.specs.RowFields.{field_if, layer_fields, limit_fields, limit_mark, limit_value};
ghost use Rattle.row_codec.specs.RowReading.{layer_at, limit_at, limit_marked, limit_row_at};
ghost use Rattle.object_writer.specs.Tokens.{added, fields_tokens, object_tokens};

use crate::members::write_texts;
use crate::read_fields::{read_text, read_texts, read_u32, read_u64};
use cue_json::{FieldFault, Map};
use farm_rows::ROW_FORMAT;
use farm_types::{Cores, JobNo, Kb, LayerRow, LimitNo, LimitRow};
use object_writer::ObjectWriter;
use std::alloc::{AllocError, Global};

/// A layer, as an object in that format.
#[tactic(auto, unfolding(crate::specs::RowFields::layer_fields))]
pub fn write_layer(out: &mut ObjectWriter, format: u64, row: &LayerRow) -> Result<(), AllocError>
    ensures { OnOk result (out.new ≡ added out.old (object_tokens (layer_fields format row.now))) }
{
    out.begin_object()?;
    out.text("command", row.command.as_str())?;
    out.cores("cores", row.cores)?;
    write_limit(out, format, row.limit)?;
    out.memory("memory", row.memory)?;
    out.text("name", row.name.as_str())?;
    out.text("range", row.range.as_str())?;
    write_texts(out, "tags", &row.tags)?;
    out.end_object()
}

/// The layer at that place of a job that the object's fields say in that format.
#[tactic(auto, unfolding(crate::specs::RowReading::layer_at))]
pub fn read_layer(
    alloc: Global,
    format: u64,
    job: JobNo,
    place: u32,
    object: &Map,
) -> Result<LayerRow, FieldFault>
    ensures { Gives (λ row. row) result (layer_at format job place (members_view object.now.items)) }
{
    let command = read_text(alloc, object, "command")?;
    let cores = read_u32(alloc, object, "cores")?;
    let limit = read_limit(alloc, format, object)?;
    let memory = read_u64(alloc, object, "memory")?;
    let name = read_text(alloc, object, "name")?;
    let range = read_text(alloc, object, "range")?;
    let tags = read_texts(alloc, object, "tags")?;
    Ok(LayerRow {
        job,
        place,
        name,
        range,
        command,
        cores: Cores(cores),
        memory: Kb(memory),
        tags,
        limit,
    })
}

// A layer's limit, which rows of format 2 have.
fn write_limit(
    out: &mut ObjectWriter,
    format: u64,
    limit: Option<LimitNo>,
) -> Result<(), AllocError>
    ensures { OnOk result ((rest : Members) → added out.new (fields_tokens rest)
        ≡ added out.old (fields_tokens (field_if (codes "limit") (limit_value format limit) rest))) }
{
    if format != ROW_FORMAT {
        return Ok(());
    }
    out.whole("limit", mark_of(limit))
}

// A limit as a layer's row has it: 0 for none, else its number and one.
fn mark_of(limit: Option<LimitNo>) -> u64
    ensures { result ≡ limit_mark limit }
{
    match limit {
        None => 0,
        Some(limit) => u64::from(limit.0) + 1,
    }
}

// The limit that a layer's row has, none in format 1.
fn read_limit(alloc: Global, format: u64, object: &Map) -> Result<Option<LimitNo>, FieldFault>
    ensures { Gives (λ limit. limit) result (limit_at format (members_view object.now.items)) }
{
    if format != ROW_FORMAT {
        return Ok(None);
    }
    let mark = cue_json::whole(alloc, object, "limit", 0, 256)?;
    Ok(marked(mark))
}

// The limit of a mark.
fn marked(mark: u64) -> Option<LimitNo>
    requires { mark ≤ 256 }
    ensures { result ≡ limit_marked mark }
{
    if mark == 0 {
        return None;
    }
    Some(LimitNo((mark - 1) as u8))
}

/// A limit, as an object.
#[tactic(auto, unfolding(crate::specs::RowFields::limit_fields))]
pub fn write_limit_row(out: &mut ObjectWriter, row: &LimitRow) -> Result<(), AllocError>
    ensures { OnOk result (out.new ≡ added out.old (object_tokens (limit_fields row.now))) }
{
    out.begin_object()?;
    out.whole("most", u64::from(row.most))?;
    out.text("name", row.name.as_str())?;
    out.end_object()
}

/// The limit that the object's fields say.
#[tactic(auto, unfolding(crate::specs::RowReading::limit_row_at))]
pub fn read_limit_row(alloc: Global, object: &Map) -> Result<LimitRow, FieldFault>
    ensures { Gives (λ row. row) result (limit_row_at (members_view object.now.items)) }
{
    let most = read_u32(alloc, object, "most")?;
    let name = read_text(alloc, object, "name")?;
    Ok(LimitRow { name, most })
}
