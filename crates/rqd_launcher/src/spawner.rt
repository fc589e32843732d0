//! What starts, polls and stops attempts.

use farm_types::{Attempt, Exit};
use std::alloc::{AllocError, Global};
use std::error::Error;
use std::fmt;

/// Why a call of a spawner did nothing.
#[derive(Clone, Copy, Debug, PartialEq, Eq)]
pub enum SpawnFault {
    /// The system failed.
    Failed,
    /// There was no memory.
    NoMemory,
}

impl fmt::Display for SpawnFault {
    fn fmt<W: fmt::Write>(&self, f: &mut fmt::Formatter<W>) -> fmt::Result {
        match self {
            SpawnFault::Failed => write!(f, "the system failed"),
            SpawnFault::NoMemory => write!(f, "out of memory"),
        }
    }
}

impl Error for SpawnFault {}

impl From<AllocError> for SpawnFault {
    ghost use Rattle.std.specs.Prelude.{◌≡◌};
    ghost use Rattle.rqd_launcher.specs.declared.spawner.SpawnFault.TheVariants.{NoMemory};

    ghost from_gives = { λ _ e. e ≡ NoMemory };

    fn from(_: AllocError) -> SpawnFault {
        SpawnFault::NoMemory
    }
}

/// What starts attempts on a host, and stops them. It tells the list of its calls with their answers where it can, without those that found no
/// memory, and counts its faults. A call is Failed only where the count of faults rises in it; one that finds no memory does nothing.
pub trait Spawner {
    ghost use Rattle.std.specs.Prelude.{◌≡◌, ℕ, ◌≤◌, List, Option};
    ghost use Rattle.std.specs.Result.{IsErrOf};
    ghost use Rattle.fault_counts.specs.Counts.{HasRisen};
    ghost use Rattle.rqd_launcher.specs.declared.call.SpawnCall.{SpawnCall};
    ghost use Rattle.rqd_launcher.specs.declared.call.SpawnTask.TheVariants.{Start, Poll, Stop};
    ghost use Rattle.rqd_launcher.specs.declared.spawner.SpawnFault.TheVariants.{Failed};
    ghost use Rattle.cue_io.specs.Growth.{Grows};
    ghost use Rattle.rqd_launcher.specs.Calls.{act_answer, poll_answer, told_as};

    ghost calls: { Self → Option (List SpawnCall) };

    ghost faults: { Self → ℕ };

    /// Starts an attempt by its command.
    fn start(&mut self, alloc: Global, attempt: Attempt, command: &str) -> Result<(), SpawnFault>
        ensures told { Grows (calls self.old) (calls self.new) (told_as (Start attempt command.now) (act_answer result)) }
        ensures cause { IsErrOf result Failed → HasRisen (faults self.old) (faults self.new) }
        ensures rises { faults self.old ≤ faults self.new };

    /// How an attempt ended; None where it has not.
    fn poll(&mut self, alloc: Global, attempt: Attempt) -> Result<Option<Exit>, SpawnFault>
        ensures told { Grows (calls self.old) (calls self.new) (told_as (Poll attempt) (poll_answer result)) }
        ensures cause { IsErrOf result Failed → HasRisen (faults self.old) (faults self.new) }
        ensures rises { faults self.old ≤ faults self.new };

    /// Stops an attempt, with all that it started. That it has ended is told by a later poll.
    fn stop(&mut self, alloc: Global, attempt: Attempt) -> Result<(), SpawnFault>
        ensures told { Grows (calls self.old) (calls self.new) (told_as (Stop attempt) (act_answer result)) }
        ensures cause { IsErrOf result Failed → HasRisen (faults self.old) (faults self.new) }
        ensures rises { faults self.old ≤ faults self.new };
}
