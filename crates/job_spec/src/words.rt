//! Fields whose texts have a form: facilities, commands.

ghost use Rattle.std.specs.Prelude.{◌≡◌, Ok, Err, if◌then◌else◌};
ghost use Rattle.std.specs.List.{list_all};
ghost use Rattle.cue_json.specs.View.{members_view};
ghost use Rattle.cue_json.specs.Fields.{Gives, WrongKind};
ghost use Rattle.farm_types.specs.Forms.{is_command_byte, is_command_text, is_tag_text};
ghost use Rattle.farm_lines.specs.Spec.{text_of};

use cue_json::{FieldFault, Map};
use farm_types::{Text, is_tag};
use std::alloc::Global;

/// The field's facility, which has the form of a tag.
pub fn facility(alloc: Global, object: &Map, field: &str) -> Result<Text, FieldFault>
    ensures { Gives (λ facility. facility) result (text_of is_tag_text field.now (members_view object.now.items)) }
{
    let text = cue_json::text(alloc, object, field)?;
    kept(alloc, field, text, is_tag(text))
}

/// The field's command, of any length, without control bytes.
pub fn command(alloc: Global, object: &Map, field: &str) -> Result<Text, FieldFault>
    ensures { Gives (λ command. command) result (text_of is_command_text field.now (members_view object.now.items)) }
{
    let text = cue_json::text(alloc, object, field)?;
    kept(alloc, field, text, is_command(text))
}

/// A copy of the text where it has the form that was asked for.
pub fn kept(alloc: Global, field: &str, text: &str, is_formed: bool) -> Result<Text, FieldFault>
    ensures { Gives (λ kept. kept) result (if is_formed then Ok text.now else Err (WrongKind field.now)) }
{
    if is_formed {
        Ok(Text::from_str(alloc, text)?)
    } else {
        Err(FieldFault::wrong_kind(alloc, field))
    }
}

// Whether no byte of the text is below 32.
fn is_command(text: &str) -> bool
    ensures { result ≡ is_command_text text.now }
{
    are_command_bytes(text.as_bytes())
}

// Whether no byte is below 32.
fn are_command_bytes(bytes: &[u8]) -> bool
    ensures { result ≡ list_all is_command_byte bytes.now }
{
    bytes.iter().all(|b| 32 <= *b)
}
