//! Fields of objects, and items of lists.

use case_text::{Calls, LineFault};
use cue_json::{
    FieldFault, LineFault as ObjectFault, Map, flag, has, list, no_others, object, object_item,
    object_of, signed, text, text_item, whole,
};
use json::Scratch;
use std::alloc::{AllocError, Global};

// The field that the values of rows are.
const FIELD: &str = "field";

/// Calls for fields of objects and items of lists.
#[derive(Clone, Copy, Debug, PartialEq, Eq)]
pub enum FieldCall {
    Whole,
    Signed,
    Kinds,
    Items,
    OtherKeys,
}

impl FieldCall {
    /// All of them, in the order in which their files are read.
    pub const ALL: [FieldCall; 5] = [
        FieldCall::Whole,
        FieldCall::Signed,
        FieldCall::Kinds,
        FieldCall::Items,
        FieldCall::OtherKeys,
    ];
}

impl Calls for FieldCall {
    fn file_name(&self) -> &'static str {
        match self {
            FieldCall::Whole => "whole_numbers.rows",
            FieldCall::Signed => "signed_numbers.rows",
            FieldCall::Kinds => "kinds.rows",
            FieldCall::Items => "items.rows",
            FieldCall::OtherKeys => "other_keys.rows",
        }
    }

    fn answer(&self, alloc: Global, given: &str) -> Result<String, LineFault> {
        match self {
            FieldCall::Whole => whole_number(alloc, given),
            FieldCall::Signed => signed_number(alloc, given),
            FieldCall::Kinds => kind(alloc, given),
            FieldCall::Items => item_kind(alloc, given),
            FieldCall::OtherKeys => other_key(alloc, given),
        }
    }
}

// The whole number that a value is within limits, as `7 from 0 to 9`.
fn whole_number(alloc: Global, given: &str) -> Result<String, LineFault> {
    let Some((value, least, most)) = within(given) else {
        return Err(LineFault::Malformed);
    };
    let (Ok(least), Ok(most)) = (least.parse::<u64>(), most.parse::<u64>()) else {
        return Err(LineFault::Malformed);
    };
    let line = line_with(alloc, value)?;
    let mut scratch = Scratch::new(alloc);
    let holder = object_in(alloc, line.as_str(), &mut scratch)?;
    match whole(alloc, &holder, FIELD, least, most) {
        Ok(number) => Ok(format!(in alloc; "{number}")?),
        Err(fault) => told(alloc, &fault),
    }
}

// The same with signs.
fn signed_number(alloc: Global, given: &str) -> Result<String, LineFault> {
    let Some((value, least, most)) = within(given) else {
        return Err(LineFault::Malformed);
    };
    let (Ok(least), Ok(most)) = (least.parse::<i64>(), most.parse::<i64>()) else {
        return Err(LineFault::Malformed);
    };
    let line = line_with(alloc, value)?;
    let mut scratch = Scratch::new(alloc);
    let holder = object_in(alloc, line.as_str(), &mut scratch)?;
    match signed(alloc, &holder, FIELD, least, most) {
        Ok(number) => Ok(format!(in alloc; "{number}")?),
        Err(fault) => told(alloc, &fault),
    }
}

// The value and its two limits.
fn within(given: &str) -> Option<(&str, &str, &str)> {
    let (value, limits) = given.split_once(" from ")?;
    let (least, most) = limits.split_once(" to ")?;
    Some((value, least, most))
}

// The line of an object whose one field is the value, or of one without fields where the value is `absent`.
fn line_with(alloc: Global, value: &str) -> Result<String, AllocError> {
    if value == "absent" {
        return String::from_str(alloc, "{}");
    }
    format!(in alloc; "{{\"{FIELD}\":{value}}}")
}

// The object that a line is.
fn object_in<'a>(
    alloc: Global,
    line: &'a str,
    scratch: &'a mut Scratch,
) -> Result<Map<'a>, LineFault> {
    match object_of(alloc, line.as_bytes(), scratch) {
        Ok(object) => Ok(object),
        Err(ObjectFault::NotAnObject) => Err(LineFault::Malformed),
        Err(ObjectFault::NoMemory) => Err(LineFault::NoMemory),
    }
}

// Which of the calls for texts, flags, lists and objects takes the value.
fn kind(alloc: Global, given: &str) -> Result<String, LineFault> {
    let line = line_with(alloc, given)?;
    let mut scratch = Scratch::new(alloc);
    let holder = object_in(alloc, line.as_str(), &mut scratch)?;
    if !has(&holder, FIELD) {
        return missing(alloc, &holder);
    }
    let mut kinds = String::new(alloc);
    if let Ok(text) = text(alloc, &holder, FIELD) {
        kinds.push_str(format!(in alloc; "text of {}", text.len())?.as_str())?;
    }
    if let Ok(flag) = flag(alloc, &holder, FIELD) {
        kinds.push_str(format!(in alloc; "flag {flag}")?.as_str())?;
    }
    if let Ok(items) = list(alloc, &holder, FIELD) {
        kinds.push_str(format!(in alloc; "list of {}", items.len())?.as_str())?;
    }
    if let Ok(members) = object(alloc, &holder, FIELD) {
        kinds.push_str(format!(in alloc; "object of {}", members.len())?.as_str())?;
    }
    Ok(some_kind(alloc, kinds)?)
}

// The kinds, or `none` where there is no kind.
fn some_kind(alloc: Global, kinds: String) -> Result<String, AllocError> {
    if kinds.is_empty() {
        String::from_str(alloc, "none")
    } else {
        Ok(kinds)
    }
}

// What each call says of a field that is absent.
fn missing(alloc: Global, holder: &Map) -> Result<String, LineFault> {
    match text(alloc, holder, FIELD) {
        Ok(_) => Ok(String::from_str(alloc, "there")?),
        Err(fault) => told(alloc, &fault),
    }
}

// Which of the calls for texts and objects takes the item of a list.
fn item_kind(alloc: Global, given: &str) -> Result<String, LineFault> {
    let line = format!(in alloc; "{{\"{FIELD}\":[{given}]}}")?;
    let mut scratch = Scratch::new(alloc);
    let holder = object_in(alloc, line.as_str(), &mut scratch)?;
    let Ok(items) = list(alloc, &holder, FIELD) else {
        return Err(LineFault::Malformed);
    };
    let [item] = items.as_slice() else {
        return Err(LineFault::Malformed);
    };
    let mut kinds = String::new(alloc);
    if let Ok(text) = text_item(alloc, item, FIELD) {
        kinds.push_str(format!(in alloc; "text of {}", text.len())?.as_str())?;
    }
    if let Ok(members) = object_item(alloc, item, FIELD) {
        kinds.push_str(format!(in alloc; "object of {}", members.len())?.as_str())?;
    }
    Ok(some_kind(alloc, kinds)?)
}

// The first key of an object that isn't among others, as `{"a":1,"b":2} beside b`.
fn other_key(alloc: Global, given: &str) -> Result<String, LineFault> {
    let Some((line, names)) = given.rsplit_once(" beside") else {
        return Err(LineFault::Malformed);
    };
    let mut scratch = Scratch::new(alloc);
    let holder = object_in(alloc, line, &mut scratch)?;
    let mut fields = Vec::new(alloc);
    for name in names.split_whitespace() {
        fields.push(name)?;
    }
    match no_others(alloc, &holder, fields.as_slice()) {
        Ok(()) => Ok(String::from_str(alloc, "none")?),
        Err(fault) => told(alloc, &fault),
    }
}

// The fault in words, with its field where that isn't the one of rows.
fn told(alloc: Global, fault: &FieldFault) -> Result<String, LineFault> {
    let (words, field) = match fault {
        FieldFault::Missing { field } => ("missing", field.as_str()),
        FieldFault::WrongKind { field } => ("wrong kind", field.as_str()),
        FieldFault::Unknown { field } => ("unknown", field.as_str()),
        FieldFault::NoMemory => return Err(LineFault::NoMemory),
    };
    if field == FIELD {
        Ok(String::from_str(alloc, words)?)
    } else {
        Ok(format!(in alloc; "{words} {field}")?)
    }
}
