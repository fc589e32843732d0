//! Rows of slots whose attempts operators end.

ghost use Rattle.std.specs.Prelude.{◌≡◌, if◌then◌else◌};
ghost use Rattle.farm_types.specs.Operators.{retried_row, stopped_row, waits};
ghost use Rattle.farm_types.specs.Settle.{raised};
ghost use Rattle.farm_types.specs.declared.states.FrameState.TheVariants as frame_state;

use farm_types::{Frame, FrameState, SlotRow, Version};

/// The slot without its attempt, its frame in that state. A frame that waited leaves its version.
pub fn stopped_row(row: &SlotRow, state: FrameState) -> SlotRow
    ensures { result ≡ stopped_row state row.now }
{
    let frame = match &row.frame {
        None => None,
        Some(frame) => Some(in_state(frame, state)),
    };
    SlotRow {
        version: next_version(row),
        frame,
        proc: None,
    }
}

// The frame in that state.
fn in_state(frame: &Frame, state: FrameState) -> Frame
    ensures { result ≡ record frame.now { state = state } }
{
    let mut changed = *frame;
    changed.state = state;
    changed
}

// The version that the slot has once its frame has stopped: one more where the frame waited.
fn next_version(row: &SlotRow) -> Version
    ensures { result ≡ (if waits row.now then raised row.now.version else row.now.version) }
{
    if waits(row) {
        row.version.next()
    } else {
        row.version
    }
}

// Whether the slot has a frame that waits.
fn waits(row: &SlotRow) -> bool
    ensures { result ≡ waits row.now }
{
    match &row.frame {
        None => false,
        Some(frame) => frame.state.is_waiting(),
    }
}

/// The slot without its attempt, its frame waiting as at first.
pub fn retried_row(row: &SlotRow) -> SlotRow
    ensures { result ≡ retried_row row.now }
{
    let frame = match &row.frame {
        None => None,
        Some(frame) => Some(fresh(frame)),
    };
    SlotRow {
        version: row.version,
        frame,
        proc: None,
    }
}

// The frame as it waits at first.
fn fresh(frame: &Frame) -> Frame
    ensures { result ≡ record frame.now { state = frame_state.Waiting; retries = 0 } }
{
    let mut fresh = *frame;
    fresh.state = FrameState::Waiting;
    fresh.retries = 0;
    fresh
}
