//! Values over the text that they were read from, each as one kind or another.

ghost use Rattle.std.specs.Prelude.{◌≡◌, option_and_then, option_map};
ghost use Rattle.serde_json.specs.Find.{as_array, as_bool, as_i64, as_number, as_object, as_str, as_u64};
ghost use Rattle.cue_json.specs.View.{fits, items_fit, items_view, members_fit, members_view, view};
ghost use Rattle.json.specs.Value as tree;

use crate::numbers::{has_number, signed_of, whole_of};

/// A value whose texts are borrowed, and whose numbers stay text.
pub type Value<'a> = json::Value<'a>;

/// An object: its members in the order of the text.
pub type Map<'a> = Vec<(&'a str, Value<'a>)>;

/// The value's text.
pub(crate) fn as_text<'v>(value: &'v Value) -> Option<&'v str>
    ensures { option_map (λ t. t.now) result ≡ as_str (view value.now) }
{
    match value {
        Value::String(text) => Some(*text),
        Value::Null => None,
        Value::Bool(_) => None,
        Value::Number(_) => None,
        Value::Array(_) => None,
        Value::Object(_) => None,
    }
}

/// The value's whole number.
pub(crate) fn as_whole(value: &Value) -> Option<u64>
    ensures { result ≡ option_and_then as_u64 (as_number (view value.now)) }
{
    match value {
        Value::Number(text) => whole_of(text),
        Value::Null => None,
        Value::Bool(_) => None,
        Value::String(_) => None,
        Value::Array(_) => None,
        Value::Object(_) => None,
    }
}

/// The value's whole number with a sign.
pub(crate) fn as_signed(value: &Value) -> Option<i64>
    ensures { result ≡ option_and_then as_i64 (as_number (view value.now)) }
{
    match value {
        Value::Number(text) => signed_of(text),
        Value::Null => None,
        Value::Bool(_) => None,
        Value::String(_) => None,
        Value::Array(_) => None,
        Value::Object(_) => None,
    }
}

/// The value's `true` or `false`.
pub(crate) fn as_flag(value: &Value) -> Option<bool>
    ensures { result ≡ as_bool (view value.now) }
{
    match value {
        Value::Bool(flag) => Some(*flag),
        Value::Null => None,
        Value::Number(_) => None,
        Value::String(_) => None,
        Value::Array(_) => None,
        Value::Object(_) => None,
    }
}

/// The value's items.
pub(crate) fn as_list<'v, 'a>(value: &'v Value<'a>) -> Option<&'v Vec<Value<'a>>>
    ensures { option_map (λ xs. items_view xs.now.items) result ≡ as_array (view value.now) }
{
    match value {
        Value::Array(items) => Some(items),
        Value::Null => None,
        Value::Bool(_) => None,
        Value::Number(_) => None,
        Value::String(_) => None,
        Value::Object(_) => None,
    }
}

/// The value's members, where it is an object.
pub fn as_object<'v, 'a>(value: &'v Value<'a>) -> Option<&'v Map<'a>>
    ensures { option_map (λ m. members_view m.now.items) result ≡ as_object (view value.now) }
{
    match value {
        Value::Object(members) => Some(members),
        Value::Null => None,
        Value::Bool(_) => None,
        Value::Number(_) => None,
        Value::String(_) => None,
        Value::Array(_) => None,
    }
}

/// Whether each number in the value is within the range of floats.
#[cycle(fitting)]
pub(crate) fn fits(value: &Value) -> bool
    ensures { result ≡ fits (tree.value_view value.now) }
{
    match value {
        Value::Number(text) => has_number(text),
        Value::Array(items) => items_fit(items),
        Value::Object(members) => members_fit(members),
        Value::Null => true,
        Value::Bool(_) => true,
        Value::String(_) => true,
    }
}

#[cycle(fitting)]
fn items_fit(items: &Vec<Value>) -> bool
    ensures { result ≡ items_fit (tree.items_view items.now.items) }
{
    for item in items {
        if !fits(item) {
            return false;
        }
    }
    true
}

#[cycle(fitting)]
fn members_fit(members: &Map) -> bool
    ensures { result ≡ members_fit (tree.members_view members.now.items) }
{
    for member in members {
        if !fits(&member.1) {
            return false;
        }
    }
    true
}
