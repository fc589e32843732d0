//! Why an entry isn't recorded.

ghost use Rattle.std.specs.Prelude.{◌≡◌};

use farm_keeper::KeeperFault;
use std::alloc::AllocError;

/// Why a change isn't recorded: the store failed, or memory ran out.
#[derive(Clone, Copy, Debug, PartialEq, Eq)]
pub enum RecordFault {
    Store,
    NoMemory,
}

impl From<KeeperFault> for RecordFault {
    ghost use Rattle.recorder.specs.Faults.{of_keeper};

    ghost from_gives = { λ fault e. e ≡ of_keeper fault };

    fn from(fault: KeeperFault) -> RecordFault {
        match fault {
            KeeperFault::Failed => RecordFault::Store,
            KeeperFault::NoMemory => RecordFault::NoMemory,
        }
    }
}

impl From<AllocError> for RecordFault {
    ghost use Rattle.recorder.specs.declared.refusal.RecordFault.TheVariants.{NoMemory};

    ghost from_gives = { λ _ e. e ≡ NoMemory };

    fn from(_fault: AllocError) -> RecordFault {
        RecordFault::NoMemory
    }
}
