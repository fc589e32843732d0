//! One item of a list. An item of another kind is told by the name of the list.

ghost use Rattle.std.specs.Prelude.{OnErr, IsErr};
ghost use Rattle.serde_json.specs.Find.{as_str, as_object};
ghost use Rattle.cue_json.specs.View.{view, members_view};
ghost use Rattle.cue_json.specs.Fields.{Gives, of_kind};

use crate::fault::FieldFault;
use crate::values::{Map, Value, as_object, as_text};
use std::alloc::Global;

/// The object that the item is, else `WrongKind` with the list's `field`.
pub fn object_item<'v, 'a>(
    alloc: Global,
    item: &'v Value<'a>,
    field: &str,
) -> Result<&'v Map<'a>, FieldFault>
    ensures gives { Gives (λ m. members_view m.now.items) result (of_kind field.now (as_object (view item.now))) }
    ensures only { OnErr result (IsErr (of_kind field.now (as_object (view item.now)))) }
{
    match as_object(item) {
        Some(inner) => Ok(inner),
        None => Err(FieldFault::wrong_kind(alloc, field)),
    }
}

/// The item's text, else `WrongKind` with the list's `field`.
pub fn text_item<'v>(alloc: Global, item: &'v Value, field: &str) -> Result<&'v str, FieldFault>
    ensures gives { Gives (λ t. t.now) result (of_kind field.now (as_str (view item.now))) }
    ensures only { OnErr result (IsErr (of_kind field.now (as_str (view item.now)))) }
{
    match as_text(item) {
        Some(text) => Ok(text),
        None => Err(FieldFault::wrong_kind(alloc, field)),
    }
}
