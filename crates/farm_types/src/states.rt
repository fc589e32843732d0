//! The states of frames, jobs and hosts.

use std::fmt;

/// The state of a frame. `Setup` stands only between a claim and its confirmation; the records never have it.
#[derive(Clone, Copy, Debug, PartialEq, Eq)]
pub enum FrameState {
    Waiting,
    Setup,
    Running,
    Succeeded,
    Depend,
    Dead,
    Eaten,
}

impl fmt::Display for FrameState {
    fn fmt<W: fmt::Write>(&self, f: &mut fmt::Formatter<W>) -> fmt::Result {
        match self {
            FrameState::Waiting => write!(f, "waiting"),
            FrameState::Setup => write!(f, "set up"),
            FrameState::Running => write!(f, "running"),
            FrameState::Succeeded => write!(f, "done"),
            FrameState::Depend => write!(f, "blocked"),
            FrameState::Dead => write!(f, "dead"),
            FrameState::Eaten => write!(f, "eaten"),
        }
    }
}

/// The state of a job.
#[derive(Clone, Copy, Debug, PartialEq, Eq)]
pub enum JobState {
    Pending,
    Finished,
}

/// Whether a host takes frames: printed `OPEN`, `LOCKED` and `NIMBY_LOCKED`.
#[derive(Clone, Copy, Debug, PartialEq, Eq)]
pub enum LockState {
    Unlocked,
    Locked,
    NimbyLocked,
}

/// Whether a host was heard in time.
#[derive(Clone, Copy, Debug, PartialEq, Eq)]
pub enum HostState {
    Up,
    Down,
}
