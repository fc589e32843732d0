//! What the recorder's calls answer, as a case tells it.

use crate::said::{lock_word, state_word, write_found};
use booking_recorder::{CommitRefusal, ConfirmRefusal};
use std::alloc::{AllocError, Global};
use std::fmt;

/// Why a claim isn't booked, printed as the answer that a case tells.
#[derive(Clone, Copy, Debug, PartialEq, Eq)]
pub struct Why {
    pub why: ConfirmRefusal,
}

impl fmt::Display for Why {
    fn fmt<W: fmt::Write>(&self, f: &mut fmt::Formatter<W>) -> fmt::Result {
        match self.why {
            ConfirmRefusal::Withdrawn { found } => write_found(f, "withdrawn", found),
            ConfirmRefusal::EntriesSpent => write!(f, "entries_spent"),
            ConfirmRefusal::Paused => write!(f, "paused"),
            ConfirmRefusal::HostClosed { state, lock } => {
                write!(f, "host_closed {} {}", state_word(state), lock_word(lock))
            }
            ConfirmRefusal::BurstLowered { booked, burst } => {
                write!(f, "burst_lowered booked {} burst {}", booked.0, burst.0)
            }
            ConfirmRefusal::LimitLowered { running, most } => {
                write!(f, "limit_lowered running {running} most {most}")
            }
            ConfirmRefusal::Memory => write!(f, "memory"),
            ConfirmRefusal::Store => write!(f, "store"),
        }
    }
}

/// Why an entry isn't recorded, as a case tells it.
pub fn refusal_text(alloc: Global, refusal: &CommitRefusal) -> Result<String, AllocError> {
    match refusal {
        CommitRefusal::Refused { why } => format!(in alloc; "refused: {why}"),
        CommitRefusal::Spent => String::from_str(alloc, "entries_spent"),
        CommitRefusal::Held { cores, memory } => {
            format!(in alloc; "still_held cores {} memory {}", cores.0, memory.0)
        }
        CommitRefusal::Store => String::from_str(alloc, "store"),
        CommitRefusal::NoMemory => Err(AllocError),
    }
}
