//! The fields of the farm's own row, and of shows, allocations and subscriptions.

ghost use Rattle.std.specs.Prelude.{◌≡◌, OnOk};
ghost use Rattle.cue_json.specs.View.{members_view};
ghost use Rattle.cue_json.specs.Fields.{Gives};
ghost use Rattle.row_codec.specs.RowFields.{alloc_fields, head_fields, show_fields, sub_fields};
ghost use Rattle.row_codec.specs.RowReading.{alloc_at, head_at, show_at, sub_at};
ghost use Rattle.object_writer.specs.Tokens.{added, object_tokens};

use crate::read_fields::{read_text, read_u32, read_u64};
use cue_json::{FieldFault, Map};
use farm_rows::HeadRow;
use farm_types::{AllocRow, Cores, ShowRow, SubNo, SubRow};
use object_writer::ObjectWriter;
use std::alloc::{AllocError, Global};

/// The farm's own row, as an object.
#[tactic(auto, unfolding(crate::specs::RowFields::head_fields))]
pub fn write_head(out: &mut ObjectWriter, row: &HeadRow) -> Result<(), AllocError>
    ensures { OnOk result (out.new ≡ added out.old (object_tokens (head_fields row.now))) }
{
    out.begin_object()?;
    out.whole("depends", row.depends)?;
    out.whole("finishes", row.finishes)?;
    out.whole("format", row.format)?;
    out.whole("jobs", row.jobs)?;
    out.whole("moment", row.moment)?;
    out.end_object()
}

/// The farm's own row, as the object's fields say.
#[tactic(auto, unfolding(crate::specs::RowReading::head_at))]
pub fn read_head(alloc: Global, object: &Map) -> Result<HeadRow, FieldFault>
    ensures { Gives (λ row. row) result (head_at (members_view object.now.items)) }
{
    let depends = read_u64(alloc, object, "depends")?;
    let finishes = read_u64(alloc, object, "finishes")?;
    let format = read_u64(alloc, object, "format")?;
    let jobs = read_u64(alloc, object, "jobs")?;
    let moment = read_u64(alloc, object, "moment")?;
    Ok(HeadRow {
        format,
        moment,
        jobs,
        finishes,
        depends,
    })
}

/// A show, as an object.
#[tactic(auto, unfolding(crate::specs::RowFields::show_fields))]
pub fn write_show(out: &mut ObjectWriter, row: &ShowRow) -> Result<(), AllocError>
    ensures { OnOk result (out.new ≡ added out.old (object_tokens (show_fields row.now))) }
{
    out.begin_object()?;
    out.text("name", row.name.as_str())?;
    out.end_object()
}

/// The show that the object's fields say.
#[tactic(auto, unfolding(crate::specs::RowReading::show_at))]
pub fn read_show(alloc: Global, object: &Map) -> Result<ShowRow, FieldFault>
    ensures { Gives (λ row. row) result (show_at (members_view object.now.items)) }
{
    let name = read_text(alloc, object, "name")?;
    Ok(ShowRow { name })
}

/// An allocation, as an object.
#[tactic(auto, unfolding(crate::specs::RowFields::alloc_fields))]
pub fn write_alloc(out: &mut ObjectWriter, row: &AllocRow) -> Result<(), AllocError>
    ensures { OnOk result (out.new ≡ added out.old (object_tokens (alloc_fields row.now))) }
{
    out.begin_object()?;
    out.text("facility", row.facility.as_str())?;
    out.text("tag", row.tag.as_str())?;
    out.end_object()
}

/// The allocation that the object's fields say.
#[tactic(auto, unfolding(crate::specs::RowReading::alloc_at))]
pub fn read_alloc(alloc: Global, object: &Map) -> Result<AllocRow, FieldFault>
    ensures { Gives (λ row. row) result (alloc_at (members_view object.now.items)) }
{
    let facility = read_text(alloc, object, "facility")?;
    let tag = read_text(alloc, object, "tag")?;
    Ok(AllocRow { facility, tag })
}

/// A subscription, as an object.
#[tactic(auto, unfolding(crate::specs::RowFields::sub_fields))]
pub fn write_sub(out: &mut ObjectWriter, row: &SubRow) -> Result<(), AllocError>
    ensures { OnOk result (out.new ≡ added out.old (object_tokens (sub_fields row.now))) }
{
    out.begin_object()?;
    out.cores("burst", row.burst)?;
    out.cores("size", row.size)?;
    out.end_object()
}

/// The subscription of that number that the object's fields say.
#[tactic(auto, unfolding(crate::specs::RowReading::sub_at))]
pub fn read_sub(alloc: Global, sub: SubNo, object: &Map) -> Result<SubRow, FieldFault>
    ensures { Gives (λ row. row) result (sub_at sub (members_view object.now.items)) }
{
    let burst = read_u32(alloc, object, "burst")?;
    let size = read_u32(alloc, object, "size")?;
    Ok(SubRow {
        sub,
        size: Cores(size),
        burst: Cores(burst),
    })
}
