//! A frame as its slot holds it.

use farm_types::{FrameState, JobNo, Version};

/// A frame: its job, its layer's place in the job, its position in the layer's range (from 0) and the number there, its
/// state, its slot's version, and how often it was retried.
#[derive(Clone, Copy, Debug, PartialEq, Eq)]
pub struct FrameView {
    pub job: JobNo,
    pub layer: u32,
    pub position: u32,
    pub number: i32,
    pub state: FrameState,
    pub version: Version,
    pub retries: u32,
}
