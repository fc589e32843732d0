//! Why rows make no farm.

use std::alloc::AllocError;
use std::fmt;

/// Why rows of a draft make no farm.
#[derive(Clone, Copy, Debug, PartialEq, Eq)]
pub enum DraftFault {
    /// The row of that kind and id breaks the farm.
    Breaks { kind: u8, id: u64 },
    /// The farm could not be held.
    NoMemory,
}

impl From<AllocError> for DraftFault {
    ghost use Rattle.std.specs.Prelude.{◌≡◌};
    ghost use Rattle.recovery.specs.declared.fault.DraftFault.TheVariants.{NoMemory};

    ghost from_gives = { λ _ e. e ≡ NoMemory };

    fn from(_e: AllocError) -> DraftFault {
        DraftFault::NoMemory
    }
}

impl fmt::Display for DraftFault {
    fn fmt<W: fmt::Write>(&self, f: &mut fmt::Formatter<W>) -> fmt::Result {
        match self {
            DraftFault::Breaks { kind, id } => write!(f, "row {id} of kind {kind} breaks the farm"),
            DraftFault::NoMemory => write!(f, "out of memory"),
        }
    }
}

/// Why a store's rows make no farm: the first row at fault, by its kind and id.
#[derive(Clone, Copy, Debug, PartialEq, Eq)]
pub enum RecoverFault {
    /// The bytes are no row of that kind and id.
    BadBytes { kind: u8, id: u64 },
    /// The row breaks the farm: it doesn't come after the one before it, or doesn't fit those before it, or something is wrong with it once all are there.
    BreaksFarm { kind: u8, id: u64 },
    /// The farm could not be held.
    NoMemory,
}

impl From<AllocError> for RecoverFault {
    ghost use Rattle.std.specs.Prelude.{◌≡◌};
    ghost use Rattle.recovery.specs.declared.fault.RecoverFault.TheVariants.{NoMemory};

    ghost from_gives = { λ _ e. e ≡ NoMemory };

    fn from(_e: AllocError) -> RecoverFault {
        RecoverFault::NoMemory
    }
}

impl fmt::Display for RecoverFault {
    fn fmt<W: fmt::Write>(&self, f: &mut fmt::Formatter<W>) -> fmt::Result {
        match self {
            RecoverFault::BadBytes { kind, id } => write!(
                f,
                "bad bytes of row {id} of kind {kind}"
            ),
            RecoverFault::BreaksFarm { kind, id } => {
                write!(f, "row {id} of kind {kind} breaks the farm")
            }
            RecoverFault::NoMemory => write!(f, "out of memory"),
        }
    }
}
