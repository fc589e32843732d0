//! Why the farm doesn't do what is asked.

ghost use Rattle.std.specs.Prelude.{◌≡◌};
ghost use Rattle.farm_types.specs.Faults.{IsRefusal};
ghost use Rattle.farm_types.specs.declared.fault.FarmFault.TheVariants.{Refused};
ghost use Rattle.farm_types.specs.declared.refusal.Refusal.TheVariants.{Exists, Finished, Full, Unknown};

use crate::refusal::{Counted, Refusal};
use crate::text::Text;
use std::alloc::{AllocError, Global};
use std::fmt;

/// Why the farm doesn't do what is asked of it, or doesn't show it.
#[derive(Debug, Drop)]
pub enum FarmFault {
    /// The farm refuses it.
    Refused { why: Refusal },
    /// Memory ran out.
    NoMemory,
}

impl FarmFault {
    /// That there is nothing of that name.
    pub fn unknown(alloc: Global, name: &Text) -> FarmFault
        ensures { IsRefusal (Unknown name.now) result }
    {
        match name.copy(alloc) {
            Ok(name) => FarmFault::Refused {
                why: Refusal::Unknown { name },
            },
            Err(_) => FarmFault::NoMemory,
        }
    }

    /// That the job of that name is finished.
    pub fn finished(alloc: Global, name: &Text) -> FarmFault
        ensures { IsRefusal (Finished name.now) result }
    {
        match name.copy(alloc) {
            Ok(name) => FarmFault::Refused {
                why: Refusal::Finished { name },
            },
            Err(_) => FarmFault::NoMemory,
        }
    }

    /// That one of that name is there.
    pub fn existing(alloc: Global, name: &Text) -> FarmFault
        ensures { IsRefusal (Exists name.now) result }
    {
        match name.copy(alloc) {
            Ok(name) => FarmFault::Refused {
                why: Refusal::Exists { name },
            },
            Err(_) => FarmFault::NoMemory,
        }
    }

    /// That so many are there as there may be.
    pub fn full(limit: u64, what: Counted) -> FarmFault
        ensures { result ≡ Refused (Full limit what) }
    {
        FarmFault::Refused {
            why: Refusal::Full { limit, what },
        }
    }
}

impl fmt::Display for FarmFault {
    fn fmt<W: fmt::Write>(&self, f: &mut fmt::Formatter<W>) -> fmt::Result {
        match self {
            FarmFault::Refused { why } => write!(f, "the farm refuses it: {why}"),
            FarmFault::NoMemory => write!(f, "out of memory"),
        }
    }
}

impl From<AllocError> for FarmFault {
    ghost use Rattle.std.specs.Prelude.{◌≡◌};
    ghost use Rattle.farm_types.specs.declared.fault.FarmFault.TheVariants.{NoMemory};

    ghost from_gives = { λ _ e. e ≡ NoMemory };

    fn from(_: AllocError) -> FarmFault {
        FarmFault::NoMemory
    }
}
