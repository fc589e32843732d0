//! Attempts, how they exit, and the record of a live one.

use crate::numbers::{Cores, HostNo, Kb, Slot, SubNo, Version};

/// One try at rendering a frame, named by its slot and its version.
#[derive(Clone, Copy, Debug, PartialEq, Eq)]
pub struct Attempt {
    pub slot: Slot,
    pub version: Version,
}

/// How an attempt ended: its exit status and signal, each from 0 to 65,535.
#[derive(Clone, Copy, Debug, PartialEq, Eq)]
pub struct Exit {
    pub status: u32,
    pub signal: u32,
}

/// A completion that a host reports: the attempt, how it ended, and the free cores that the host tells beside it, if any.
#[derive(Clone, Copy, Debug, PartialEq, Eq)]
pub struct DoneItem {
    pub attempt: Attempt,
    pub exit: Exit,
    pub free: Option<Cores>,
}

/// A live attempt: where it runs, what it uses there, and since which moment (seconds).
#[derive(Clone, Copy, Debug, PartialEq, Eq)]
pub struct ProcRow {
    pub slot: Slot,
    pub version: Version,
    pub host: HostNo,
    pub boot: u32,
    pub cores: Cores,
    pub memory: Kb,
    pub sub: SubNo,
    pub since: u64,
}
