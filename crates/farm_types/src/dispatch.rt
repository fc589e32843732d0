//! The order in which frames are offered to a host.

use crate::numbers::{HostNo, JobNo, ShowNo, Slot, SubNo, Version};

/// What decides a frame's place in the dispatch order of a host: its subscription's booked cores and size
/// (hundredths), its show, its job's priority and number, its layer's place, and its position in the layer.
#[derive(Clone, Copy, Debug, PartialEq, Eq)]
pub struct Rank {
    pub booked: u64,
    pub size: u64,
    pub show: ShowNo,
    pub priority: u32,
    pub job: JobNo,
    pub layer: u32,
    pub position: u32,
    pub candidate: Candidate,
}

/// A frame that may be booked on a host: its slot and version, and the subscription that it is booked on.
#[derive(Clone, Copy, Debug, PartialEq, Eq)]
pub struct Candidate {
    pub slot: Slot,
    pub version: Version,
    pub sub: SubNo,
    pub host: HostNo,
}

/// What ended a round of bookings: its last candidate, a fault of the store, or that memory ran out.
#[derive(Clone, Copy, Debug, PartialEq, Eq)]
pub enum Cut {
    Whole,
    Store,
    Memory,
}
