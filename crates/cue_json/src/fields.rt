//! One field of an object: a text, a number, a flag, a list or an object. The name in a fault is all that
//! takes memory, so each error, out of memory too, comes only in place of a fault.

ghost use Rattle.std.specs.Prelude.{◌≡◌, option_map, OnErr, IsErr};
ghost use Rattle.serde_json.specs.Find.{get_member};
ghost use Rattle.json.specs.Find as json;
ghost use Rattle.json.specs.Value as tree;
ghost use Rattle.cue_json.specs.View.{items_view, members_view, view};
ghost use Rattle.cue_json.specs.Fields.{Gives, text_at, whole_at, signed_at, flag_at, list_at, object_at, has_key};

use crate::fault::FieldFault;
use crate::keys::is_same;
use crate::values::{Map, Value, as_flag, as_list, as_object, as_signed, as_text, as_whole};
use std::alloc::Global;

/// The last value at the key.
fn found<'v, 'a>(object: &'v Map<'a>, field: &str) -> Option<&'v Value<'a>>
    ensures { option_map (λ v. view v.now) result ≡ get_member field.now (members_view object.now.items) }
{
    last_of(object.as_slice(), field)
}

fn last_of<'v, 'a>(members: &'v [(&'a str, Value<'a>)], field: &str) -> Option<&'v Value<'a>>
    ensures { option_map (λ v. tree.value_view v.now) result ≡ json.get_member field.now (tree.members_view members.now) }
{
    let mut left = members.len();
    while left > 0 {
        left -= 1;
        let member = &members[left];
        if is_same(member.0, field) {
            return Some(&member.1);
        }
    }
    None
}

/// Whether the key is there, for a field that may be left out. A `null` counts as there.
pub fn has(object: &Map, field: &str) -> bool
    ensures { result ≡ has_key field.now (members_view object.now.items) }
{
    found(object, field).is_some()
}

/// The field's text: `Missing` where the key is absent, `WrongKind` where the value is no text.
pub fn text<'v>(alloc: Global, object: &'v Map, field: &str) -> Result<&'v str, FieldFault>
    ensures gives { Gives (λ t. t.now) result (text_at field.now (members_view object.now.items)) }
    ensures only { OnErr result (IsErr (text_at field.now (members_view object.now.items))) }
{
    let Some(value) = found(object, field) else {
        return Err(FieldFault::missing(alloc, field));
    };
    match as_text(value) {
        Some(text) => Ok(text),
        None => Err(FieldFault::wrong_kind(alloc, field)),
    }
}

/// The field's whole number: `WrongKind` where the value is no whole number of 64 bits, or lies below
/// `least` or above `most`.
pub fn whole(
    alloc: Global,
    object: &Map,
    field: &str,
    least: u64,
    most: u64,
) -> Result<u64, FieldFault>
    ensures gives { Gives (λ n. n) result (whole_at field.now least most (members_view object.now.items)) }
    ensures only { OnErr result (IsErr (whole_at field.now least most (members_view object.now.items))) }
{
    let Some(value) = found(object, field) else {
        return Err(FieldFault::missing(alloc, field));
    };
    match as_whole(value) {
        Some(number) if least <= number && number <= most => Ok(number),
        _ => Err(FieldFault::wrong_kind(alloc, field)),
    }
}

/// The same with a sign.
pub fn signed(
    alloc: Global,
    object: &Map,
    field: &str,
    least: i64,
    most: i64,
) -> Result<i64, FieldFault>
    ensures gives { Gives (λ z. z) result (signed_at field.now least most (members_view object.now.items)) }
    ensures only { OnErr result (IsErr (signed_at field.now least most (members_view object.now.items))) }
{
    let Some(value) = found(object, field) else {
        return Err(FieldFault::missing(alloc, field));
    };
    match as_signed(value) {
        Some(signed) if least <= signed && signed <= most => Ok(signed),
        _ => Err(FieldFault::wrong_kind(alloc, field)),
    }
}

/// The field's `true` or `false`; `WrongKind` for `null` and for every other value.
pub fn flag(alloc: Global, object: &Map, field: &str) -> Result<bool, FieldFault>
    ensures gives { Gives (λ b. b) result (flag_at field.now (members_view object.now.items)) }
    ensures only { OnErr result (IsErr (flag_at field.now (members_view object.now.items))) }
{
    let Some(value) = found(object, field) else {
        return Err(FieldFault::missing(alloc, field));
    };
    match as_flag(value) {
        Some(flag) => Ok(flag),
        None => Err(FieldFault::wrong_kind(alloc, field)),
    }
}

/// The items of the field's list, in order: `WrongKind` where the value is no list.
pub fn list<'v, 'a>(
    alloc: Global,
    object: &'v Map<'a>,
    field: &str,
) -> Result<&'v Vec<Value<'a>>, FieldFault>
    ensures gives { Gives (λ xs. items_view xs.now.items) result (list_at field.now (members_view object.now.items)) }
    ensures only { OnErr result (IsErr (list_at field.now (members_view object.now.items))) }
{
    let Some(value) = found(object, field) else {
        return Err(FieldFault::missing(alloc, field));
    };
    match as_list(value) {
        Some(items) => Ok(items),
        None => Err(FieldFault::wrong_kind(alloc, field)),
    }
}

/// The object that the field is: `WrongKind` where the value is no object.
pub fn object<'v, 'a>(
    alloc: Global,
    object: &'v Map<'a>,
    field: &str,
) -> Result<&'v Map<'a>, FieldFault>
    ensures gives { Gives (λ m. members_view m.now.items) result (object_at field.now (members_view object.now.items)) }
    ensures only { OnErr result (IsErr (object_at field.now (members_view object.now.items))) }
{
    let Some(value) = found(object, field) else {
        return Err(FieldFault::missing(alloc, field));
    };
    match as_object(value) {
        Some(inner) => Ok(inner),
        None => Err(FieldFault::wrong_kind(alloc, field)),
    }
}
