//! Fields that hold a name.

ghost use Rattle.std.specs.Prelude.{◌≡◌, Ok, Err, if◌then◌else◌};
ghost use Rattle.cue_json.specs.View.{members_view};
ghost use Rattle.cue_json.specs.Fields.{Gives, WrongKind};
ghost use Rattle.farm_types.specs.Forms.{is_name_or_empty};
ghost use Rattle.farm_lines.specs.Fields.{name_at};
ghost use Rattle.farm_lines.specs.Spec.{text_of};

use cue_json::{FieldFault, Map};
use farm_types::{Text, is_name};
use std::alloc::Global;

/// The name in a field: `Missing` where the key is absent, `WrongKind` where the value is no text or no name.
pub fn read_name(alloc: Global, object: &Map, field: &str) -> Result<Text, FieldFault>
    ensures { Gives (λ name. name) result (name_at field.now (members_view object.now.items)) }
{
    let text = cue_json::text(alloc, object, field)?;
    kept(alloc, text, field, is_name(text))
}

/// The same of a name that may be empty.
pub fn read_name_or_empty(alloc: Global, object: &Map, field: &str) -> Result<Text, FieldFault>
    ensures { Gives (λ name. name) result (text_of is_name_or_empty field.now (members_view object.now.items)) }
{
    let text = cue_json::text(alloc, object, field)?;
    kept(alloc, text, field, text.is_empty() || is_name(text))
}

// A copy of the text where it has the form that was asked for.
fn kept(alloc: Global, text: &str, field: &str, is_formed: bool) -> Result<Text, FieldFault>
    ensures { Gives (λ kept. kept) result (if is_formed then Ok text.now else Err (WrongKind field.now)) }
{
    if is_formed {
        Ok(Text::from_str(alloc, text)?)
    } else {
        Err(FieldFault::wrong_kind(alloc, field))
    }
}
