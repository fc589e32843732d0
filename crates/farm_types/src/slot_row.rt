//! What a frame slot holds.

use crate::attempt::ProcRow;
use crate::numbers::{JobNo, Version};
use crate::states::FrameState;

/// A frame: its job, its layer's place in the job, its position in the layer's range (from 0) and the number
/// there, how often it was retried, and its state.
#[derive(Clone, Copy, Debug, PartialEq, Eq)]
pub struct Frame {
    pub job: JobNo,
    pub layer: u32,
    pub position: u32,
    pub number: i32,
    pub retries: u32,
    pub state: FrameState,
}

/// A frame slot: its version, the frame in it, and that frame's live attempt.
#[derive(Clone, Copy, Debug, PartialEq, Eq)]
pub struct SlotRow {
    pub version: Version,
    pub frame: Option<Frame>,
    pub proc: Option<ProcRow>,
}
