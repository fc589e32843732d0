//! What the farm answers to an entry.

use crate::numbers::{Cores, DependNo};

/// What the farm answers to an entry that it took: the numbers that the reply shows.
#[derive(Clone, Copy, Debug, PartialEq, Eq)]
pub enum Answer {
    Opened,
    Show,
    Alloc,
    /// The cores that are booked of the subscription, its burst and its size (hundredths of a core).
    Sub {
        booked: Cores,
        burst: Cores,
        size: Cores,
    },
    /// How many frames of the layers that have the limit run at most, and how many run.
    Limit {
        most: u32,
        running: u32,
    },
    /// The host's boot number, and the nonce of the boot.
    Boot {
        boot: u32,
        nonce: u64,
    },
    Heard,
    /// How many frames the job has.
    Submitted {
        frames: u32,
    },
    /// The depend's number, and how many frames wait in those of its groups that aren't met.
    DependAdded {
        depend: DependNo,
        unmet: u32,
    },
    /// How many frames wait for no other any more, and are ready to run.
    DependDropped {
        opened: u32,
    },
    Paused,
    /// How many attempts ended.
    Ended {
        ended: u32,
    },
    Lock,
    /// How many hosts went down, and how many attempts were lost.
    Tick {
        down: u32,
        lost: u32,
    },
    Booked,
}
