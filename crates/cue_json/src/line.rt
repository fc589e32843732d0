//! A line's bytes as an object.

ghost use Rattle.std.specs.Prelude.{◌≡◌, option_map};
ghost use Rattle.json.specs.Value.{value_view};
ghost use Rattle.serde_json.specs.Find.{as_object};
ghost use Rattle.serde_json.specs.Read.{read};
ghost use Rattle.cue_json.specs.Lines.{IsObjectIn, IsValueIn, object_in, whole};
ghost use Rattle.cue_json.specs.View.{members_view, view};

use crate::values::{Map, Value, fits};
use json::{Error, Reader, Scratch};
use std::alloc::{AllocError, Global};
use std::fmt;

// How deep arrays and objects may nest.
const MOST_NESTED: usize = 127;

/// Why a line gave no object.
#[derive(Clone, Copy, Debug, PartialEq, Eq, Drop)]
pub enum LineFault {
    /// The bytes are not UTF-8, or no JSON, or no object, nest past 127, or go on after the object.
    NotAnObject,
    /// The value could not be held.
    NoMemory,
}

impl From<AllocError> for LineFault {
    ghost use Rattle.std.specs.Prelude.{◌≡◌};
    ghost use Rattle.cue_json.specs.declared.line.LineFault.TheVariants.{NoMemory};

    ghost from_gives = { λ _ e. e ≡ NoMemory };

    fn from(_e: AllocError) -> LineFault {
        LineFault::NoMemory
    }
}

impl fmt::Display for LineFault {
    fn fmt<W: fmt::Write>(&self, f: &mut fmt::Formatter<W>) -> fmt::Result {
        match self {
            LineFault::NotAnObject => write!(f, "not a JSON object"),
            LineFault::NoMemory => write!(f, "out of memory"),
        }
    }
}

/// The object that the line is, nested at most 127 deep. Of a key that comes twice the last value counts. What is read borrows from the line, and texts
/// with escapes from the scratch, which is kept from line to line.
pub fn object_of<'a>(
    alloc: Global,
    line: &'a [u8],
    scratch: &'a mut Scratch,
) -> Result<Map<'a>, LineFault>
    ensures { IsObjectIn (λ m. members_view m.items) result (object_in line.now) }
{
    let Ok(text) = str::from_utf8(line) else {
        return Err(LineFault::NotAnObject);
    };
    match value_of(alloc, text, scratch) {
        Ok(value) => object_within(value).ok_or(LineFault::NotAnObject),
        Err(fault) => Err(fault),
    }
}

// The value that the text is.
fn value_of<'a>(
    alloc: Global,
    text: &'a str,
    scratch: &'a mut Scratch,
) -> Result<Value<'a>, LineFault>
    ensures { IsValueIn view result (read text.now) }
{
    let mut reader = Reader::new(text, scratch)?;
    match Value::read(alloc, &mut reader, MOST_NESTED) {
        Ok(value) => whole_of(&mut reader, value),
        Err(Error::OutOfMemory) => Err(LineFault::NoMemory),
        Err(Error::Invalid) => Err(LineFault::NotAnObject),
        Err(Error::TooLong) => unreachable!(),
        Err(Error::DuplicateKey) => unreachable!(),
    }
}

// The value where nothing comes after it, and each number of it is within the range of floats.
fn whole_of<'a>(reader: &mut Reader<'a>, value: Value<'a>) -> Result<Value<'a>, LineFault>
    ensures { IsValueIn view result (whole (value_view value.entry) reader.old) }
{
    if reader.next().is_some() || !fits(&value) {
        return Err(LineFault::NotAnObject);
    }
    Ok(value)
}

/// The members of a value that is an object.
fn object_within<'a>(value: Value<'a>) -> Option<Map<'a>>
    ensures { option_map (λ m. members_view m.items) result ≡ as_object (view value.entry) }
{
    match value {
        Value::Object(members) => Some(members),
        Value::Null => None,
        Value::Bool(_b) => None,
        Value::Number(_n) => None,
        Value::String(_s) => None,
        Value::Array(_v) => None,
    }
}
