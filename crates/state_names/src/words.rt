//! The words.

ghost use Rattle.std.specs.Prelude.{◌≡◌};
ghost use Rattle.state_names.specs.Words.{counted_word, cut_word, host_word, job_word, kind_word, lock_word, state_word};

use farm_types::{Counted, Cut, DependKind, FrameState, HostState, JobState, LockState};

/// The word of a frame's state.
pub fn state_word(state: FrameState) -> &'static str
    ensures { result.now ≡ state_word state }
{
    match state {
        FrameState::Waiting => "WAITING",
        FrameState::Setup => "SETUP",
        FrameState::Running => "RUNNING",
        FrameState::Succeeded => "SUCCEEDED",
        FrameState::Depend => "DEPEND",
        FrameState::Dead => "DEAD",
        FrameState::Eaten => "EATEN",
    }
}

/// The word of a host's lock.
pub fn lock_word(lock: LockState) -> &'static str
    ensures { result.now ≡ lock_word lock }
{
    match lock {
        LockState::Unlocked => "OPEN",
        LockState::Locked => "LOCKED",
        LockState::NimbyLocked => "NIMBY_LOCKED",
    }
}

/// The word of a host's state.
pub fn host_word(state: HostState) -> &'static str
    ensures { result.now ≡ host_word state }
{
    match state {
        HostState::Up => "UP",
        HostState::Down => "DOWN",
    }
}

/// The word of a job's state.
pub fn job_word(state: JobState) -> &'static str
    ensures { result.now ≡ job_word state }
{
    match state {
        JobState::Pending => "PENDING",
        JobState::Finished => "FINISHED",
    }
}

/// The word of a kind of depend.
pub fn kind_word(kind: DependKind) -> &'static str
    ensures { result.now ≡ kind_word kind }
{
    match kind {
        DependKind::JobOnJob => "JOB_ON_JOB",
        DependKind::JobOnLayer => "JOB_ON_LAYER",
        DependKind::JobOnFrame => "JOB_ON_FRAME",
        DependKind::LayerOnJob => "LAYER_ON_JOB",
        DependKind::LayerOnLayer => "LAYER_ON_LAYER",
        DependKind::LayerOnFrame => "LAYER_ON_FRAME",
        DependKind::FrameOnJob => "FRAME_ON_JOB",
        DependKind::FrameOnLayer => "FRAME_ON_LAYER",
        DependKind::FrameOnFrame => "FRAME_ON_FRAME",
        DependKind::FrameByFrame => "FRAME_BY_FRAME",
        DependKind::PreviousFrame => "PREVIOUS_FRAME",
    }
}

/// The word for how a report's bookings ended.
pub fn cut_word(cut: Cut) -> &'static str
    ensures { result.now ≡ cut_word cut }
{
    match cut {
        Cut::Whole => "",
        Cut::Store => "store",
        Cut::Memory => "memory",
    }
}

/// The word for what is counted.
pub fn counted_word(what: Counted) -> &'static str
    ensures { result.now ≡ counted_word what }
{
    match what {
        Counted::Shows => "shows",
        Counted::Allocs => "allocs",
        Counted::Limits => "limits",
        Counted::Hosts => "hosts",
        Counted::Boots => "boots",
        Counted::Jobs => "jobs",
        Counted::Depends => "depends",
        Counted::Groups => "groups",
        Counted::DependNumbers => "depend_numbers",
    }
}
