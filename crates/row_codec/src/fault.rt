//! Why bytes gave no row.

use cue_json::{FieldFault, LineFault};
use std::alloc::AllocError;
use std::fmt;

/// Why bytes gave no row.
#[derive(Clone, Copy, Debug, PartialEq, Eq)]
pub enum RowFault {
    /// No row of that kind and id has these bytes.
    BadBytes { kind: u8, id: u64 },
    /// The row could not be held.
    NoMemory,
}

impl fmt::Display for RowFault {
    fn fmt<W: fmt::Write>(&self, f: &mut fmt::Formatter<W>) -> fmt::Result {
        match self {
            RowFault::BadBytes { kind, id } => write!(f, "bad bytes of row {id} of kind {kind}"),
            RowFault::NoMemory => write!(f, "out of memory"),
        }
    }
}

/// The same within the crate, where kind and id are known.
#[derive(Clone, Copy, Debug, PartialEq, Eq)]
pub enum ReadFault {
    /// No row is spelled so.
    NoRow,
    /// The row could not be held.
    NoMemory,
}

impl From<AllocError> for ReadFault {
    ghost use Rattle.std.specs.Prelude.{◌≡◌};
    ghost use Rattle.row_codec.specs.declared.fault.ReadFault.TheVariants.{NoMemory};

    ghost from_gives = { λ _ e. e ≡ NoMemory };

    fn from(_e: AllocError) -> ReadFault {
        ReadFault::NoMemory
    }
}

impl From<FieldFault> for ReadFault {
    ghost use Rattle.std.specs.Prelude.{◌≡◌};
    ghost use Rattle.row_codec.specs.Faults.{of_field};

    ghost from_gives = { λ fault e. e ≡ of_field fault };

    fn from(fault: FieldFault) -> ReadFault {
        match fault {
            FieldFault::Missing { field: _field } => ReadFault::NoRow,
            FieldFault::WrongKind { field: _field } => ReadFault::NoRow,
            FieldFault::Unknown { field: _field } => ReadFault::NoRow,
            FieldFault::NoMemory => ReadFault::NoMemory,
        }
    }
}

impl From<LineFault> for ReadFault {
    ghost use Rattle.std.specs.Prelude.{◌≡◌};
    ghost use Rattle.row_codec.specs.Faults.{of_line};

    ghost from_gives = { λ fault e. e ≡ of_line fault };

    fn from(fault: LineFault) -> ReadFault {
        match fault {
            LineFault::NotAnObject => ReadFault::NoRow,
            LineFault::NoMemory => ReadFault::NoMemory,
        }
    }
}
