//! Lists of tags.

ghost use Rattle.std.specs.Prelude.{◌≡◌, ◌∷◌, [], codes, IfOk};
ghost use Rattle.cue_json.specs.View.{items_view, members_view, view};
ghost use Rattle.cue_json.specs.Fields.{Gives};
ghost use Rattle.farm_lines.specs.Spec.{tag_item, tags_at, tags_in};

use crate::words::kept;
use cue_json::{FieldFault, Map, Value};
use farm_types::{Items, Text, is_tag};
use std::alloc::{AllocError, Global};

/// The tags in the field's list, in order and of any number: `Missing` where the key is absent, `WrongKind` with the
/// list's `field` where it is no list, or where an item of it is no text or no tag.
pub fn read_tags(alloc: Global, object: &Map, field: &str) -> Result<Items<Text>, FieldFault>
    ensures { Gives (λ tags. tags) result (tags_at field.now (members_view object.now.items)) }
{
    let values = cue_json::list(alloc, object, field)?;
    read_values(alloc, field, values.as_slice())
}

// The tags of the list of that field.
fn read_values(alloc: Global, field: &str, values: &[Value]) -> Result<Items<Text>, FieldFault>
    ensures { Gives (λ tags. tags) result (tags_in field.now (items_view values.now)) }
{
    let mut found = Items::new(alloc);
    for value in values {
        found.push(read_tag(alloc, field, value)?)?;
    }
    Ok(found)
}

// One tag of the list of that field.
fn read_tag(alloc: Global, field: &str, value: &Value) -> Result<Text, FieldFault>
    ensures { Gives (λ tag. tag) result (tag_item field.now (view value.now)) }
{
    let text = cue_json::text_item(alloc, value, field)?;
    kept(alloc, field, text, is_tag(text))
}

/// The tags of a layer that says none: `general`.
pub fn default_tags(alloc: Global) -> Result<Items<Text>, AllocError>
    ensures { IfOk result (λ tags. tags ≡ codes "general" ∷ []) }
{
    let mut tags = Items::new(alloc);
    tags.push(Text::from_str(alloc, "general")?)?;
    Ok(tags)
}
