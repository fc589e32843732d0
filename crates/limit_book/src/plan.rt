//! Where a limit is set, or why it can't be.

use farm_types::{LimitNo, MOST_LIMITS};
use std::fmt;

/// Where a limit of a name is set: at a new number, or at that of the one that is there.
#[derive(Clone, Copy, Debug, PartialEq, Eq)]
pub enum LimitPlan {
    New { limit: LimitNo },
    Known { limit: LimitNo },
}

/// Why a limit can't be set.
#[derive(Clone, Copy, Debug, PartialEq, Eq)]
pub enum LimitRefusal {
    /// None of that name is there, and so many are as there may be.
    Full,
}

impl fmt::Display for LimitRefusal {
    fn fmt<W: fmt::Write>(&self, f: &mut fmt::Formatter<W>) -> fmt::Result {
        match self {
            LimitRefusal::Full => write!(f, "{MOST_LIMITS} limits are there"),
        }
    }
}
