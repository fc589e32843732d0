//! Why an event can't happen.

use std::alloc::AllocError;

/// Why an event can't happen, or a world can't be made. What isn't there is told first.
#[derive(Clone, Copy, Debug, PartialEq, Eq)]
pub enum WorldFault {
    /// The event names a host, a line, a running attempt, a commit or a farm that isn't there; or a line that a world is made with is a host's.
    NoSuch,
    /// The host has used the nonce.
    UsedNonce { nonce: u64 },
    /// Memory ran out.
    NoMemory,
}

impl From<AllocError> for WorldFault {
    ghost use Rattle.std.specs.Prelude.{◌≡◌};
    ghost use Rattle.world_law.specs.declared.fault.WorldFault.TheVariants.{NoMemory};

    ghost from_gives = { λ _ e. e ≡ NoMemory };

    fn from(_: AllocError) -> WorldFault {
        WorldFault::NoMemory
    }
}
