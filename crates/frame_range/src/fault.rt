//! Why a text is no frame set.

use std::alloc::{AllocError, AllocFailed};
use std::fmt;

/// Why a text is no frame set. Sections count from 1, and the first one with a fault decides; within it the first of
/// these, in this order.
#[derive(Clone, Copy, Debug, PartialEq, Eq)]
pub enum RangeFault {
    /// The section has none of the five forms. The empty text is section 1.
    Syntax { section: usize },
    /// A number, step or interleave is past 9,999,999 or below -9,999,999.
    OutOfRange { section: usize },
    /// The step or interleave is 0.
    ZeroStep { section: usize },
    /// The step leads away from the last number: it is positive where that is below the first, or negative where it isn't.
    WrongWay { section: usize },
    /// The section has no number, as `1-10y1`.
    Empty { section: usize },
    /// With this section the set has more than 10,000 distinct numbers.
    TooMany { section: usize },
    /// Memory ran out.
    NoMemory,
}

impl fmt::Display for RangeFault {
    fn fmt<W: fmt::Write>(&self, f: &mut fmt::Formatter<W>) -> fmt::Result {
        match self {
            RangeFault::Syntax { section } => write!(f, "section {section} is malformed"),
            RangeFault::OutOfRange { section } => {
                write!(f, "section {section} has a number out of range")
            }
            RangeFault::ZeroStep { section } => write!(f, "section {section} has a step of 0"),
            RangeFault::WrongWay { section } => write!(f, "section {section} steps the wrong way"),
            RangeFault::Empty { section } => write!(f, "section {section} has no numbers"),
            RangeFault::TooMany { section } => write!(f, "section {section} has too many numbers"),
            RangeFault::NoMemory => write!(f, "out of memory"),
        }
    }
}

impl From<AllocError> for RangeFault {
    ghost use Rattle.std.specs.Prelude.{◌≡◌};
    ghost use Rattle.frame_range.specs.declared.fault.RangeFault.TheVariants.{NoMemory};

    ghost from_gives = { λ _ e. e ≡ NoMemory };

    fn from(_e: AllocError) -> RangeFault {
        RangeFault::NoMemory
    }
}

impl<T: Drop> From<AllocFailed<T>> for RangeFault {
    ghost use Rattle.std.specs.Prelude.{◌≡◌};
    ghost use Rattle.frame_range.specs.declared.fault.RangeFault.TheVariants.{NoMemory};

    ghost from_gives = { λ _ e. e ≡ NoMemory };

    fn from(_e: AllocFailed<T>) -> RangeFault {
        RangeFault::NoMemory
    }
}
