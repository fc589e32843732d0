//! What happens in a world.

use farm_types::{Attempt, Exit};

/// One event. Hosts are numbered by their places, and lines to the scheduler and lines to hosts each in the order in
/// which they were sent, from 0. A line that no event delivers is lost.
#[derive(Clone, Copy, Debug, PartialEq, Eq)]
pub enum Event {
    /// A host sends its next line.
    Send {
        host: u32,
    },
    /// A line comes to the scheduler, for the first time or again, at a moment (seconds). Where `refused` is there, the
    /// store refuses the commit of that number among those of this line, counted from 0.
    ToCue {
        line: u32,
        moment: u64,
        refused: Option<u32>,
    },
    /// A line comes to its host, for the first time or again.
    ToHost {
        line: u32,
    },
    /// An attempt that a host runs ends.
    Ended {
        host: u32,
        attempt: Attempt,
        exit: Exit,
    },
    /// A host begins a new life, with no old process and a nonce that it never used.
    NewLife {
        host: u32,
        nonce: u64,
    },
    /// The scheduler starts again at a moment (seconds): at its farm, or at the farm of that number among those that one refused commit would have made.
    Restart {
        further: Option<u32>,
        moment: u64,
    },
}
