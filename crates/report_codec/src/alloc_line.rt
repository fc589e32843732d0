//! The line that adds an allocation.

ghost use Rattle.std.specs.Prelude.{◌≡◌, IfOk};
ghost use Rattle.cue_json.specs.View.{members_view};
ghost use Rattle.cue_json.specs.Fields.{Gives, of_kind};
ghost use Rattle.farm_lines.specs.Request.{alloc_at, alloc_name_at, alloc_of_name, alloc_parts, asked, asks_alloc};
ghost use Rattle.report_codec.specs.Reads.{IsRequest};

use cue_json::{FieldFault, Map};
use farm_lines::{Request, RequestFault, split_at_point};
use farm_types::{AllocRow, Text, is_tag};
use std::alloc::{AllocError, Global};

/// The allocation that the object adds, or its first fault.
pub fn read_alloc(alloc: Global, object: &Map) -> Result<Request, RequestFault>
    ensures { IsRequest result (asked asks_alloc (alloc_at (members_view object.now.items))) }
{
    let AllocRow { facility, tag } = allocation(alloc, object)?;
    Ok(Request::Alloc { facility, tag })
}

// The allocation's name, and no other field.
#[tactic(auto, unfolding(farm_lines::specs::Request::alloc_at))]
fn allocation(alloc: Global, object: &Map) -> Result<AllocRow, FieldFault>
    ensures { Gives (λ row. row) result (alloc_at (members_view object.now.items)) }
{
    let row = read_alloc_name(alloc, object, "name")?;
    cue_json::no_others(alloc, object, &["name", "op"])?;
    Ok(row)
}

// The allocation that the field's text names.
fn read_alloc_name(alloc: Global, object: &Map, field: &str) -> Result<AllocRow, FieldFault>
    ensures { Gives (λ row. row) result (alloc_name_at field.now (members_view object.now.items)) }
{
    let name = cue_json::text(alloc, object, field)?;
    named(alloc, field, name)
}

// The allocation of that name, whose parts stand around the first point.
fn named(alloc: Global, field: &str, name: &str) -> Result<AllocRow, FieldFault>
    ensures { Gives (λ row. row) result (of_kind field.now (alloc_of_name name.now)) }
{
    let (facility, tag) = split_at_point(name);
    match tag {
        Some(tag) => parts(alloc, field, facility, tag),
        None => Err(FieldFault::wrong_kind(alloc, field)),
    }
}

// The allocation of these parts, each of which has the form of a tag.
fn parts(alloc: Global, field: &str, facility: &str, tag: &str) -> Result<AllocRow, FieldFault>
    ensures { Gives (λ row. row) result (of_kind field.now (alloc_parts facility.now (Some tag.now))) }
{
    if is_tag(facility) && is_tag(tag) {
        Ok(row_of(alloc, facility, tag)?)
    } else {
        Err(FieldFault::wrong_kind(alloc, field))
    }
}

// The allocation of these parts.
fn row_of(alloc: Global, facility: &str, tag: &str) -> Result<AllocRow, AllocError>
    ensures { IfOk result (λ row. row ≡ record { facility = facility.now; tag = tag.now }) }
{
    Ok(AllocRow {
        facility: Text::from_str(alloc, facility)?,
        tag: Text::from_str(alloc, tag)?,
    })
}
