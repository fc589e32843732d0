//! Fields that may be left out, each with its default.

ghost use Rattle.std.specs.Prelude.{[], ◌∷◌, codes, false};
ghost use Rattle.cue_json.specs.View.{members_view};
ghost use Rattle.cue_json.specs.Fields.{Gives, flag_at, text_at};
ghost use Rattle.farm_types.specs.Forms.{is_name_or_empty};
ghost use Rattle.farm_lines.specs.Fields.{name_at, or_default};
ghost use Rattle.farm_lines.specs.Spec.{number_at, tags_at, text_of};

use crate::tags;
use cue_json::{FieldFault, Map};
use farm_lines::{read_name, read_name_or_empty, read_text};
use farm_types::{Items, Text};
use std::alloc::Global;

/// A name, or the empty text: the field's, or the empty one.
pub fn name(alloc: Global, object: &Map, field: &str) -> Result<Text, FieldFault>
    ensures { Gives (λ name. name) result (or_default [] (text_of is_name_or_empty) field.now (members_view object.now.items)) }
{
    if cue_json::has(object, field) {
        read_name_or_empty(alloc, object, field)
    } else {
        Ok(Text::from_str(alloc, "")?)
    }
}

/// The field's text, or the default.
pub fn text(alloc: Global, object: &Map, field: &str, default: &str) -> Result<Text, FieldFault>
    ensures { Gives (λ text. text) result (or_default default.now text_at field.now (members_view object.now.items)) }
{
    if cue_json::has(object, field) {
        read_text(alloc, object, field)
    } else {
        Ok(Text::from_str(alloc, default)?)
    }
}

/// The field's whole number of 64 bits, or the default.
pub fn number(alloc: Global, object: &Map, field: &str, default: u64) -> Result<u64, FieldFault>
    ensures { Gives (λ number. number) result (or_default default number_at field.now (members_view object.now.items)) }
{
    if cue_json::has(object, field) {
        cue_json::whole(alloc, object, field, 0, u64::MAX)
    } else {
        Ok(default)
    }
}

/// The field's flag, or false.
pub fn flag(alloc: Global, object: &Map, field: &str) -> Result<bool, FieldFault>
    ensures { Gives (λ flag. flag) result (or_default false flag_at field.now (members_view object.now.items)) }
{
    if cue_json::has(object, field) {
        cue_json::flag(alloc, object, field)
    } else {
        Ok(false)
    }
}

/// The field's tags, or `general`.
pub fn tags(alloc: Global, object: &Map, field: &str) -> Result<Items<Text>, FieldFault>
    ensures { Gives (λ tags. tags) result (or_default (codes "general" ∷ []) tags_at field.now (members_view object.now.items)) }
{
    if cue_json::has(object, field) {
        tags::read_tags(alloc, object, field)
    } else {
        Ok(tags::default_tags(alloc)?)
    }
}

/// The name in the field, or the job's own.
pub fn job(alloc: Global, object: &Map, field: &str, own: &Text) -> Result<Text, FieldFault>
    ensures { Gives (λ name. name) result (or_default own.now name_at field.now (members_view object.now.items)) }
{
    if cue_json::has(object, field) {
        read_name(alloc, object, field)
    } else {
        Ok(own.copy(alloc)?)
    }
}
