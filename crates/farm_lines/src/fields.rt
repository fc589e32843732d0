//! Fields of texts, of numbers and of lists, beside those of every object.

ghost use Rattle.cue_json.specs.View.{members_view};
ghost use Rattle.cue_json.specs.Fields.{Gives, text_at, whole_at};
ghost use Rattle.cue_json.specs.Items.{list_of};

use cue_json::{FieldFault, ItemReader, Map};
use farm_types::{Items, Text};
use std::alloc::Global;

/// The field's text, whatever it is.
pub fn read_text(alloc: Global, object: &Map, field: &str) -> Result<Text, FieldFault>
    ensures { Gives (λ text. text) result (text_at field.now (members_view object.now.items)) }
{
    let text = cue_json::text(alloc, object, field)?;
    Ok(Text::from_str(alloc, text)?)
}

/// The field's whole number of 32 bits: `WrongKind` where it lies below `least` or above `most`.
pub fn read_whole(
    alloc: Global,
    object: &Map,
    field: &str,
    least: u32,
    most: u32,
) -> Result<u32, FieldFault>
    ensures { Gives (λ number. number) result (whole_at field.now least most (members_view object.now.items)) }
{
    let number = cue_json::whole(alloc, object, field, u64::from(least), u64::from(most))?;
    Ok(number as u32)
}

/// The items of the field's list, in order, each read by the reader.
pub fn read_list<R: ItemReader>(
    alloc: Global,
    object: &Map,
    field: &str,
    reader: &R,
) -> Result<Items<R::Item>, FieldFault>
    ensures { Gives (λ items. items) result (list_of field.now (R.reads reader.now) (members_view object.now.items)) }
{
    let found = cue_json::read_list(alloc, object, field, reader)?;
    Ok(Items::from_vec(found))
}
