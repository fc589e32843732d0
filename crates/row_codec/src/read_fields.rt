//! Fields of the types that rows have.

ghost use Rattle.serde_json.specs.Find.{as_str};
ghost use Rattle.cue_json.specs.View.{items_view, members_view, view};
ghost use Rattle.cue_json.specs.Fields.{Gives, of_kind, text_at};
ghost use Rattle.row_codec.specs.RowReading.{i32_at, texts_at, texts_in, u16_at, u32_at, u64_at};

use cue_json::{FieldFault, Map, Value};
use farm_types::{Items, Text};
use std::alloc::Global;

/// A field that is a text.
pub fn read_text(alloc: Global, object: &Map, field: &str) -> Result<Text, FieldFault>
    ensures { Gives (λ text. text) result (text_at field.now (members_view object.now.items)) }
{
    let text = cue_json::text(alloc, object, field)?;
    Ok(Text::from_str(alloc, text)?)
}

/// A field that is a list of texts.
pub fn read_texts(alloc: Global, object: &Map, field: &str) -> Result<Items<Text>, FieldFault>
    ensures { Gives (λ texts. texts) result (texts_at field.now (members_view object.now.items)) }
{
    let values = cue_json::list(alloc, object, field)?;
    read_items(alloc, field, values.as_slice())
}

// The texts of the list of that field.
fn read_items(alloc: Global, field: &str, values: &[Value]) -> Result<Items<Text>, FieldFault>
    ensures { Gives (λ texts. texts) result (texts_in field.now (items_view values.now)) }
{
    let mut found = Items::new(alloc);
    for value in values {
        found.push(read_item(alloc, field, value)?)?;
    }
    Ok(found)
}

// One text of the list of that field.
fn read_item(alloc: Global, field: &str, value: &Value) -> Result<Text, FieldFault>
    ensures { Gives (λ text. text) result (of_kind field.now (as_str (view value.now))) }
{
    let text = cue_json::text_item(alloc, value, field)?;
    Ok(Text::from_str(alloc, text)?)
}

/// A field that is a whole number of 64 bits.
pub fn read_u64(alloc: Global, object: &Map, field: &str) -> Result<u64, FieldFault>
    ensures { Gives (λ number. number) result (u64_at field.now (members_view object.now.items)) }
{
    cue_json::whole(alloc, object, field, 0, u64::MAX)
}

/// A field that is a whole number of 32 bits.
pub fn read_u32(alloc: Global, object: &Map, field: &str) -> Result<u32, FieldFault>
    ensures { Gives (λ number. number) result (u32_at field.now (members_view object.now.items)) }
{
    let number = cue_json::whole(alloc, object, field, 0, u64::from(u32::MAX))?;
    Ok(number as u32)
}

/// A field that is a whole number of 16 bits.
pub fn read_u16(alloc: Global, object: &Map, field: &str) -> Result<u16, FieldFault>
    ensures { Gives (λ number. number) result (u16_at field.now (members_view object.now.items)) }
{
    let number = cue_json::whole(alloc, object, field, 0, u64::from(u16::MAX))?;
    Ok(number as u16)
}

/// A field that is a whole number of 32 bits with a sign.
pub fn read_i32(alloc: Global, object: &Map, field: &str) -> Result<i32, FieldFault>
    ensures { Gives (λ number. number) result (i32_at field.now (members_view object.now.items)) }
{
    let number = cue_json::signed(
        alloc,
        object,
        field,
        i64::from(i32::MIN),
        i64::from(i32::MAX),
    )?;
    Ok(number as i32)
}
