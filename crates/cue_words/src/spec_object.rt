//! The object of a spec's text, which owns its members: they go into the request, which is written from them.

ghost use Rattle.std.specs.Prelude.{◌≡◌, ◌↔◌, option_map};
ghost use Rattle.serde_json.specs.Find.{as_object};
ghost use Rattle.serde_json.specs.View.{view, members_view};
ghost use Rattle.serde_json.specs.Errors.{IsMemory};
ghost use Rattle.cue_json.specs.Lines.{IsObjectIn, object_in};

use cue_json::LineFault;
use serde_json::{Error, Value};
use std::alloc::Global;

/// An object: its members in byte order of their keys.
pub type Map = serde_json::Map<String, Value>;

/// The object that the text is, nested at most 127 deep. Of a key that comes twice the last value counts.
pub fn read_object(alloc: Global, text: &[u8]) -> Result<Map, LineFault>
    ensures { IsObjectIn (λ m. members_view m.entries) result (object_in text.now) }
{
    match Value::from_slice(alloc, text) {
        Ok(value) => object_within(value).ok_or(LineFault::NotAnObject),
        Err(e) => Err(fault_of(&e)),
    }
}

// The members of a value that is an object.
fn object_within(value: Value) -> Option<Map>
    ensures { option_map (λ m. members_view m.entries) result ≡ as_object (view value) }
{
    match value {
        Value::Object(map) => Some(map),
        Value::Null => None,
        Value::Bool(_b) => None,
        Value::Number(_n) => None,
        Value::String(_s) => None,
        Value::Array(_v) => None,
    }
}

// What the reader's error says of the text.
fn fault_of(error: &Error) -> LineFault
    ensures { (result ≡ LineFault.NoMemory) ↔ IsMemory error.now }
{
    if error.is_memory() {
        LineFault::NoMemory
    } else {
        LineFault::NotAnObject
    }
}
