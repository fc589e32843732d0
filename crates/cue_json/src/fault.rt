//! Why a field was not read.

ghost use Rattle.cue_json.specs.Fields.{Missing, WrongKind, Unknown, Names};

use std::alloc::{AllocError, Global};
use std::fmt;
use std::marker::Model;

/// The name of a field, which a contract sees as its bytes.
#[derive(Debug, Drop)]
pub struct FieldName {
    string: String,
}

impl Model for FieldName {
    ghost use Rattle.std.specs.Prelude.{ℕ, List, string_bytes};

    ghost Value = { List ℕ };

    ghost view = { λ a. string_bytes a.string };
}

impl FieldName {
    ghost use Rattle.std.specs.Prelude.{◌≡◌, IfOk, string_bytes};

    /// A copy of the name.
    pub fn copy_of(alloc: Global, name: &str) -> Result<FieldName, AllocError>
        ensures { IfOk result (λ f. f ≡ name.now) }
    {
        Ok(FieldName {
            string: String::from_str(alloc, name)?,
        })
    }

    /// The name's bytes.
    pub fn as_str(&self) -> &str
        ensures { result.now ≡ self.now }
    {
        self.string.as_str()
    }

    /// The name, with no copy.
    pub fn into_string(self) -> String
        ensures { string_bytes result ≡ self }
    {
        let FieldName { string } = self;
        string
    }
}

/// What is wrong with a field, or that memory ran out before its name was copied.
#[derive(Debug, Drop)]
pub enum FieldFault {
    /// The object has no such key.
    Missing { field: FieldName },
    /// The value is of another kind, or outside its range.
    WrongKind { field: FieldName },
    /// The key is not among the expected ones.
    Unknown { field: FieldName },
    /// The name could not be copied.
    NoMemory,
}

impl FieldFault {
    /// That the object has no such key.
    pub fn missing(alloc: Global, field: &str) -> FieldFault
        ensures { Names result (Missing field.now) }
    {
        match FieldName::copy_of(alloc, field) {
            Ok(field) => FieldFault::Missing { field },
            Err(_) => FieldFault::NoMemory,
        }
    }

    /// That the value is of another kind or outside its range.
    pub fn wrong_kind(alloc: Global, field: &str) -> FieldFault
        ensures { Names result (WrongKind field.now) }
    {
        match FieldName::copy_of(alloc, field) {
            Ok(field) => FieldFault::WrongKind { field },
            Err(_) => FieldFault::NoMemory,
        }
    }

    /// That the key is not expected.
    pub fn unknown(alloc: Global, field: &str) -> FieldFault
        ensures { Names result (Unknown field.now) }
    {
        match FieldName::copy_of(alloc, field) {
            Ok(field) => FieldFault::Unknown { field },
            Err(_) => FieldFault::NoMemory,
        }
    }
}

impl fmt::Display for FieldFault {
    fn fmt<W: fmt::Write>(&self, f: &mut fmt::Formatter<W>) -> fmt::Result {
        match self {
            FieldFault::Missing { field } => write!(f, "missing field `{}`", field.as_str()),
            FieldFault::WrongKind { field } => write!(f, "invalid field `{}`", field.as_str()),
            FieldFault::Unknown { field } => write!(f, "unknown field `{}`", field.as_str()),
            FieldFault::NoMemory => write!(f, "out of memory"),
        }
    }
}

impl From<AllocError> for FieldFault {
    ghost use Rattle.std.specs.Prelude.{◌≡◌};
    ghost use Rattle.cue_json.specs.declared.fault.FieldFault.TheVariants.{NoMemory};

    ghost from_gives = { λ _ e. e ≡ NoMemory };

    fn from(_e: AllocError) -> FieldFault {
        FieldFault::NoMemory
    }
}
