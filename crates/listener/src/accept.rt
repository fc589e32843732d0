//! What takes connections.

use cue_io::{Sink, Source};
use std::alloc::AllocError;

/// Why there is no connection.
#[derive(Clone, Copy, Debug, PartialEq, Eq)]
pub enum AcceptFault {
    /// The listener failed.
    Failed,
    /// Memory ran out.
    NoMemory,
}

impl From<AllocError> for AcceptFault {
    ghost use Rattle.std.specs.Prelude.{◌≡◌};
    ghost use Rattle.listener.specs.declared.accept.AcceptFault.TheVariants.{NoMemory};

    ghost from_gives = { λ _ e. e ≡ NoMemory };

    fn from(_: AllocError) -> AcceptFault {
        AcceptFault::NoMemory
    }
}

/// What takes the connections of those who call. It counts the connections that it `accepted`, and its `faults`; both counts stay at the last number of 64
/// bits. A connection is a source and a sink. Neither has to be one that may be let go, so that code over any listener can only hand a connection on.
pub trait Listener {
    ghost use Rattle.std.specs.Prelude.{◌≡◌, ℕ, ◌≤◌, IsErrOf, MatchResult};
    ghost use Rattle.fault_counts.specs.Counts.{HasRisen, incremented};
    ghost use Rattle.listener.specs.declared.accept.AcceptFault.TheVariants.{Failed};

    ghost accepted: { Self → ℕ };

    ghost faults: { Self → ℕ };

    type In: Source;

    type Out: Sink;

    /// Waits for the next connection. The call is Failed only where the count of faults rises in it. It counts the connection that it gives, and none where
    /// it gives none.
    fn accept(&mut self) -> Result<(Self::In, Self::Out), AcceptFault>
        ensures accepted { MatchResult result (λ _. accepted self.new ≡ incremented (accepted self.old)) (λ _. accepted self.new ≡ accepted self.old) }
        ensures cause { IsErrOf result Failed → HasRisen (faults self.old) (faults self.new) }
        ensures rises { faults self.old ≤ faults self.new };
}
