//! What the rules ask of a single number, state or row.

ghost use Rattle.std.specs.Prelude.{◌≡◌, ◌≤◌, nat_lt, Some, None, IfSome, IfNone, if◌then◌else◌};
ghost use Rattle.farm_types.specs.declared.limits.TheConstants.{SUB_NUMBERS};
ghost use Rattle.farm_types.specs.Booking.{is_pending, is_up, is_waiting, takes_frames};
ghost use Rattle.farm_types.specs.Depends.{is_done_state};
ghost use Rattle.farm_types.specs.Farm.{sub_of};
ghost use Rattle.farm_types.specs.Settle.{raised};

use crate::limits::{LAST_VERSION, MOST_ALLOCS, SUB_NUMBERS};
use crate::numbers::{AllocNo, ShowNo, SubNo, Version};
use crate::rows::HostRow;
use crate::states::{FrameState, HostState, JobState, LockState};

impl SubNo {
    /// The subscription of the show to the allocation; none where that is no subscription's number.
    pub fn of(show: ShowNo, alloc: AllocNo) -> Option<SubNo>
        ensures value { result ≡ if nat_lt (sub_of show alloc) SUB_NUMBERS then Some (sub_of show alloc) else None }
        ensures number { IfSome result (λ sub. sub ≡ sub_of show alloc) }
        ensures none { IfNone result (SUB_NUMBERS ≤ sub_of show alloc) }
    {
        let number = MOST_ALLOCS * u32::from(show.0) + u32::from(alloc.0);
        if number < SUB_NUMBERS {
            Some(SubNo(number as u16))
        } else {
            None
        }
    }
}

impl Version {
    /// One version more, up to the last.
    pub fn next(self) -> Version
        ensures { result ≡ raised self }
    {
        if self.0 < LAST_VERSION {
            Version(self.0 + 1)
        } else {
            self
        }
    }
}

impl FrameState {
    /// Whether a frame of the state waits.
    pub fn is_waiting(self) -> bool
        ensures { result ≡ is_waiting self }
    {
        matches!(self, FrameState::Waiting)
    }

    /// Whether a frame of the state is done: it succeeded, or was eaten.
    pub fn is_done(self) -> bool
        ensures { result ≡ is_done_state self }
    {
        matches!(self, FrameState::Succeeded | FrameState::Eaten)
    }
}

impl JobState {
    /// Whether a job of the state is pending.
    pub fn is_pending(self) -> bool
        ensures { result ≡ is_pending self }
    {
        matches!(self, JobState::Pending)
    }
}

impl HostState {
    /// Whether a host of the state is up.
    pub fn is_up(self) -> bool
        ensures { result ≡ is_up self }
    {
        matches!(self, HostState::Up)
    }
}

impl HostRow {
    /// Whether the host takes frames: it is up and open.
    pub fn takes_frames(&self) -> bool
        ensures { result ≡ takes_frames self.now }
    {
        self.state.is_up() && matches!(self.lock, LockState::Unlocked)
    }
}
