//! Lists of objects, each read by one reader.

ghost use Rattle.std.specs.Prelude.{Result};
ghost use Rattle.serde_json.specs.Data.{Members};
ghost use Rattle.cue_json.specs.View.{items_view, members_view, view};
ghost use Rattle.cue_json.specs.Fields.{Fault, Gives};
ghost use Rattle.cue_json.specs.Items.{item_at, items_at, list_of};

use crate::fault::FieldFault;
use crate::fields::list;
use crate::items::object_item;
use crate::values::{Map, Value};
use std::alloc::{AllocError, Global};

/// What reads an item of a list from its object.
pub trait ItemReader {
    /// What an item is read as.
    type Item: Drop;

    ghost reads: { Self → Members → Result Self.Item Fault };

    /// The item that the object is, or its first field at fault.
    fn read(&self, alloc: Global, object: &Map) -> Result<Self::Item, FieldFault>
        ensures { Gives (λ item. item) result (reads self.now (members_view object.now.items)) };
}

/// The items of the field's list, in order, each read by the reader: `Missing` where the key is absent, `WrongKind` with the list's
/// `field` where it is no list, or where an item of it is no object, else the first fault of an item.
pub fn read_list<R: ItemReader>(
    alloc: Global,
    object: &Map,
    field: &str,
    reader: &R,
) -> Result<Vec<R::Item>, FieldFault>
    ensures { Gives (λ found. found.items) result (list_of field.now (R.reads reader.now) (members_view object.now.items)) }
{
    let values = list(alloc, object, field)?;
    read_items(alloc, field, values.as_slice(), reader)
}

/// The same of the items of the list of that field.
pub fn read_items<R: ItemReader>(
    alloc: Global,
    field: &str,
    values: &[Value],
    reader: &R,
) -> Result<Vec<R::Item>, FieldFault>
    ensures { Gives (λ found. found.items) result (items_at field.now (R.reads reader.now) (items_view values.now)) }
{
    let mut found = Vec::new(alloc);
    for value in values {
        let item = read_item(alloc, field, value, reader)?;
        match found.push(item) {
            Ok(()) => {}
            Err(e) => return Err(AllocError::from(e).into()),
        }
    }
    Ok(found)
}

// One item, which is an object.
fn read_item<R: ItemReader>(
    alloc: Global,
    field: &str,
    value: &Value,
    reader: &R,
) -> Result<R::Item, FieldFault>
    ensures { Gives (λ item. item) result (item_at field.now (R.reads reader.now) (view value.now)) }
{
    let object = object_item(alloc, value, field)?;
    reader.read(alloc, object)
}
