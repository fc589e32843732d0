//! Why an entry or a booking isn't recorded, and why no seat is split off.

ghost use Rattle.std.specs.Prelude.{◌≡◌};

use farm_types::{Cores, FarmFault, HostState, Kb, LockState, Refusal};
use recorder::RecordFault as PlainFault;

/// Why an entry isn't recorded. `Refused`: by the farm. `Spent`: the journal has all the entries that it can count. `Held`: a host would boot with
/// another size while room there is held or claimed; so much of it was free. `Store`: the store failed. `NoMemory`: memory ran out.
#[derive(Debug, Drop)]
pub enum CommitRefusal {
    Refused { why: Refusal },
    Spent,
    Held { cores: Cores, memory: Kb },
    Store,
    NoMemory,
}

/// Why a change isn't recorded, by the same words.
#[derive(Clone, Copy, Debug, PartialEq, Eq)]
pub enum RecordFault {
    Spent,
    Held { cores: Cores, memory: Kb },
    Store,
    NoMemory,
}

/// Why a claim isn't booked, in the order in which it is looked for. `Withdrawn`: the slot's word isn't the claim's any more; this one was found.
/// `EntriesSpent`: the journal has all the entries that it can count. `Paused`: the frame's job is. `HostClosed`: the host isn't up and open.
/// `BurstLowered`: what is recorded as booked with the frame's cores is above the recorded burst. `LimitLowered`: as many frames are recorded as running in
/// the layer's limit as may. `Memory`: it ran out. `Store`: the store failed.
#[derive(Clone, Copy, Debug, PartialEq, Eq)]
pub enum ConfirmRefusal {
    Withdrawn { found: u64 },
    EntriesSpent,
    Paused,
    HostClosed { state: HostState, lock: LockState },
    BurstLowered { booked: Cores, burst: Cores },
    LimitLowered { running: u32, most: u32 },
    Memory,
    Store,
}

/// Why no seat is split off: there are 64.
#[derive(Clone, Copy, Debug, PartialEq, Eq)]
pub enum PassRefusal {
    Full,
}

impl From<PlainFault> for RecordFault {
    ghost use Rattle.booking_recorder.specs.Faults.{of_plain};

    ghost from_gives = { λ fault e. e ≡ of_plain fault };

    fn from(fault: PlainFault) -> RecordFault {
        match fault {
            PlainFault::Store => RecordFault::Store,
            PlainFault::NoMemory => RecordFault::NoMemory,
        }
    }
}

impl From<FarmFault> for CommitRefusal {
    ghost use Rattle.booking_recorder.specs.Faults.{of_farm};

    ghost from_gives = { λ fault e. e ≡ of_farm fault };

    fn from(fault: FarmFault) -> CommitRefusal {
        match fault {
            FarmFault::Refused { why } => CommitRefusal::Refused { why },
            FarmFault::NoMemory => CommitRefusal::NoMemory,
        }
    }
}

impl From<RecordFault> for CommitRefusal {
    ghost use Rattle.booking_recorder.specs.Faults.{of_record};

    ghost from_gives = { λ fault e. e ≡ of_record fault };

    fn from(fault: RecordFault) -> CommitRefusal {
        match fault {
            RecordFault::Spent => CommitRefusal::Spent,
            RecordFault::Held { cores, memory } => CommitRefusal::Held { cores, memory },
            RecordFault::Store => CommitRefusal::Store,
            RecordFault::NoMemory => CommitRefusal::NoMemory,
        }
    }
}
