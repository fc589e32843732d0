//! What is stored of a frame slot.

ghost use Rattle.std.specs.Prelude.{◌≡◌, option_map};
ghost use Rattle.farm_rows.specs.Recovery.{state_of};
ghost use Rattle.farm_rows.specs.Rows.{frame_row, running_state, stored_frame, stored_state};

use farm_types::{Frame, FrameState, HostNo, JobNo, ProcRow, Slot, SlotRow, Version};

/// The state of a stored frame. A running one has its attempt: the host, the host's boot, and the moment (seconds) of the booking.
/// `Setup` can be stored, but no farm has it.
#[derive(Clone, Copy, Debug, PartialEq, Eq)]
pub enum StoredState {
    Waiting,
    Setup,
    Running { boot: u32, host: HostNo, since: u64 },
    Succeeded,
    Depend,
    Dead,
    Eaten,
}

impl StoredState {
    /// The frame's state, without its attempt.
    pub fn state(self) -> FrameState
        ensures { result ≡ state_of self }
    {
        match self {
            StoredState::Waiting => FrameState::Waiting,
            StoredState::Setup => FrameState::Setup,
            StoredState::Running { .. } => FrameState::Running,
            StoredState::Succeeded => FrameState::Succeeded,
            StoredState::Depend => FrameState::Depend,
            StoredState::Dead => FrameState::Dead,
            StoredState::Eaten => FrameState::Eaten,
        }
    }
}

/// A stored frame: its job, its layer's place in the job, its number, how often it was retried, and its state.
#[derive(Clone, Copy, Debug, PartialEq, Eq)]
pub struct StoredFrame {
    pub job: JobNo,
    pub layer: u32,
    pub number: i32,
    pub retries: u32,
    pub state: StoredState,
}

/// A stored slot: its version, and the frame in it. A free slot has none.
#[derive(Clone, Copy, Debug, PartialEq, Eq)]
pub struct FrameRow {
    pub slot: Slot,
    pub version: Version,
    pub frame: Option<StoredFrame>,
}

impl FrameRow {
    /// What is stored of the slot with that row.
    pub fn of_slot(slot: Slot, row: &SlotRow) -> FrameRow
        ensures { result ≡ frame_row slot row.now }
    {
        FrameRow {
            slot,
            version: row.version,
            frame: frame_in(row),
        }
    }
}

// The stored frame of the slot.
fn frame_in(row: &SlotRow) -> Option<StoredFrame>
    ensures { result ≡ option_map (stored_frame row.now.proc) row.now.frame }
{
    match &row.frame {
        None => None,
        Some(frame) => Some(stored_frame(&row.proc, frame)),
    }
}

// The stored frame that has that attempt, or none.
fn stored_frame(proc: &Option<ProcRow>, frame: &Frame) -> StoredFrame
    ensures { result ≡ stored_frame proc.now frame.now }
{
    StoredFrame {
        job: frame.job,
        layer: frame.layer,
        number: frame.number,
        retries: frame.retries,
        state: stored_state(proc, frame.state),
    }
}

// What is stored of a state.
fn stored_state(proc: &Option<ProcRow>, state: FrameState) -> StoredState
    ensures { result ≡ stored_state proc.now state }
{
    match state {
        FrameState::Waiting => StoredState::Waiting,
        FrameState::Setup => StoredState::Setup,
        FrameState::Running => running_state(proc),
        FrameState::Succeeded => StoredState::Succeeded,
        FrameState::Depend => StoredState::Depend,
        FrameState::Dead => StoredState::Dead,
        FrameState::Eaten => StoredState::Eaten,
    }
}

// A running frame is stored with its attempt.
fn running_state(proc: &Option<ProcRow>) -> StoredState
    ensures { result ≡ running_state proc.now }
{
    match proc {
        None => StoredState::Running {
            boot: 0,
            host: HostNo(0),
            since: 0,
        },
        Some(proc) => StoredState::Running {
            boot: proc.boot,
            host: proc.host,
            since: proc.since,
        },
    }
}
