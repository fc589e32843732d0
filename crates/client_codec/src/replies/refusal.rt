//! Refusals: `why` tells which one, and `code` is its number.

ghost use Rattle.cue_json.specs.View.{members_view};
ghost use Rattle.cue_json.specs.Fields.{Gives, text_at};
ghost use Rattle.client_codec.specs.Replies.{keyed_at};
ghost use Rattle.farm_lines.specs.Fields.{name_at};
ghost use Rattle.farm_lines.specs.ReplyLines.{by_why, code_at, refusal_at};

use crate::replies::farm_refusal::{
    read_farm_full, read_stale, read_still_held, read_wrong_boot, read_wrong_state,
};
use crate::replies::full_refusal::read_full;
use crate::replies::line_refusal::{read_bad_range, read_no_memory, read_store, read_too_long};
use cue_json::{FieldFault, Map};
use farm_lines::{Reply, read_name, read_text};
use farm_types::{Refusal, Text};
use std::alloc::Global;

/// The refusal that the object is, or its first field at fault.
pub fn read_refusal(alloc: Global, object: &Map) -> Result<Reply, FieldFault>
    ensures { Gives (λ reply. reply) result (refusal_at (members_view object.now.items)) }
{
    let why = cue_json::text(alloc, object, "why")?;
    read_by_why(alloc, object, why)
}

// The refusal that the word names.
fn read_by_why(alloc: Global, object: &Map, why: &str) -> Result<Reply, FieldFault>
    ensures { Gives (λ reply. reply) result (by_why (members_view object.now.items) why.now) }
{
    match why {
        "bad_line" => Ok(Reply::BadLine {
            field: keyed_text(alloc, object, 1, "field")?,
        }),
        "too_long" => read_too_long(alloc, object),
        "unknown" => Ok(Reply::Refused(Refusal::Unknown {
            name: keyed_text(alloc, object, 3, "name")?,
        })),
        "exists" => Ok(Reply::Refused(Refusal::Exists {
            name: keyed_name(alloc, object, 4, "name")?,
        })),
        "wrong_boot" => read_wrong_boot(alloc, object),
        "stale" => read_stale(alloc, object),
        "bad_range" => read_bad_range(alloc, object),
        "bad_amount" => Ok(Reply::BadAmount {
            field: keyed_text(alloc, object, 8, "field")?,
        }),
        "farm_full" => read_farm_full(alloc, object),
        "finished" => Ok(Reply::Refused(Refusal::Finished {
            name: keyed_name(alloc, object, 10, "name")?,
        })),
        "wrong_state" => read_wrong_state(alloc, object),
        "self_depend" => Ok(Reply::Refused(Refusal::SelfDepend {
            frame: keyed_text(alloc, object, 12, "frame")?,
        })),
        "still_held" => read_still_held(alloc, object),
        "version_spent" => Ok(Reply::Refused(Refusal::VersionSpent {
            frame: keyed_text(alloc, object, 14, "frame")?,
        })),
        "store" => read_store(alloc, object),
        "memory" => read_no_memory(alloc, object),
        "started" => Ok(Reply::Refused(Refusal::Started {
            frame: keyed_text(alloc, object, 17, "frame")?,
        })),
        "full" => read_full(alloc, object),
        _ => Err(FieldFault::wrong_kind(alloc, "why")),
    }
}

/// The code of the refusal, which has to be this one.
pub fn read_code(alloc: Global, object: &Map, code: u64) -> Result<u64, FieldFault>
    ensures { Gives (λ code. code) result (code_at code (members_view object.now.items)) }
{
    cue_json::whole(alloc, object, "code", code, code)
}

// The text that a refusal with this code shows in the field.
fn keyed_text(alloc: Global, object: &Map, code: u64, field: &str) -> Result<Text, FieldFault>
    ensures { Gives (λ text. text) result (keyed_at code field.now text_at (members_view object.now.items)) }
{
    read_code(alloc, object, code)?;
    let text = read_text(alloc, object, field)?;
    cue_json::no_others(alloc, object, &["code", field, "ok", "why"])?;
    Ok(text)
}

// The name that it shows.
fn keyed_name(alloc: Global, object: &Map, code: u64, field: &str) -> Result<Text, FieldFault>
    ensures { Gives (λ name. name) result (keyed_at code field.now name_at (members_view object.now.items)) }
{
    read_code(alloc, object, code)?;
    let name = read_name(alloc, object, field)?;
    cue_json::no_others(alloc, object, &["code", field, "ok", "why"])?;
    Ok(name)
}
