//! What words ask for, and why they ask for nothing.

ghost use Rattle.std.specs.Prelude.{◌≡◌};
ghost use Rattle.cue_words.specs.declared.asked.WordsFault.TheVariants.{NoMemory};

use farm_types::Text;
use std::alloc::AllocError;
use std::fmt;

/// A request, by its line without a newline, or the help text.
#[derive(Debug, Drop)]
pub enum ToolWords {
    Ask { line: Text },
    Help,
}

/// Why words ask for nothing.
#[derive(Clone, Copy, Debug, PartialEq, Eq)]
pub enum WordsFault {
    /// The word at that place, counted from 0, is wrong, missing, or one too many. It is the first such one.
    Usage { at: usize },
    /// The job spec is not there, no JSON object, or holds a number that is no whole number of 64 bits.
    BadSpec,
    /// Memory ran out.
    NoMemory,
}

impl fmt::Display for WordsFault {
    fn fmt<W: fmt::Write>(&self, f: &mut fmt::Formatter<W>) -> fmt::Result {
        match self {
            WordsFault::Usage { at } => write!(f, "word {at} is wrong, missing or one too many"),
            WordsFault::BadSpec => write!(f, "the job spec is no JSON object of whole numbers"),
            WordsFault::NoMemory => write!(f, "out of memory"),
        }
    }
}

impl From<AllocError> for WordsFault {
    ghost from_gives = { λ _ fault. fault ≡ NoMemory };

    fn from(_refused: AllocError) -> WordsFault {
        WordsFault::NoMemory
    }
}
