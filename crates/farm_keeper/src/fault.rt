//! Why a keeper didn't do what it was asked.

use std::alloc::AllocError;
use std::error::Error;
use std::fmt;

/// Why a call of a keeper did nothing.
#[derive(Clone, Copy, Debug, PartialEq, Eq)]
pub enum KeeperFault {
    /// The store failed.
    Failed,
    /// There was no memory.
    NoMemory,
}

impl fmt::Display for KeeperFault {
    fn fmt<W: fmt::Write>(&self, f: &mut fmt::Formatter<W>) -> fmt::Result {
        match self {
            KeeperFault::Failed => write!(f, "the store of rows failed"),
            KeeperFault::NoMemory => write!(f, "out of memory"),
        }
    }
}

impl Error for KeeperFault {}

impl From<AllocError> for KeeperFault {
    ghost use Rattle.std.specs.Prelude.{◌≡◌};
    ghost use Rattle.farm_keeper.specs.declared.fault.KeeperFault.TheVariants.{NoMemory};

    ghost from_gives = { λ _ e. e ≡ NoMemory };

    fn from(_: AllocError) -> KeeperFault {
        KeeperFault::NoMemory
    }
}
