//! What words name.

ghost use Rattle.std.specs.Prelude.{◌≡◌, ℕ, List, Option};
ghost use Rattle.cue_json.specs.View.{members_view};
ghost use Rattle.cue_json.specs.Fields.{Gives, of_kind};
ghost use Rattle.state_names.specs.Words.{counted_of, cut_of, host_state_of, job_state_of, kind_of, lock_of, state_of, word_at};

use cue_json::{FieldFault, Map};
use farm_types::{Counted, Cut, DependKind, FrameState, HostState, JobState, LockState};
use std::alloc::Global;

/// What a word names.
pub trait Word: Drop {
    ghost names: { List ℕ → Option Self };

    /// What the word names, if anything.
    fn of_word(word: &str) -> Option<Self>
    where
        Self: Sized,
        ensures { result ≡ names word.now };
}

/// What the word of the field names, else its first fault.
pub fn read_word<W: Word>(alloc: Global, object: &Map, field: &str) -> Result<W, FieldFault>
    ensures { Gives (λ what. what) result (word_at W.names field.now (members_view object.now.items)) }
{
    let word = cue_json::text(alloc, object, field)?;
    named(alloc, field, W::of_word(word))
}

/// What the field's text names, if it names anything, else `WrongKind`.
pub fn named<X: Drop>(alloc: Global, field: &str, found: Option<X>) -> Result<X, FieldFault>
    ensures { Gives (λ x. x) result (of_kind field.now found) }
{
    match found {
        Some(x) => Ok(x),
        None => Err(FieldFault::wrong_kind(alloc, field)),
    }
}

impl Word for FrameState {
    ghost names = { state_of };

    fn of_word(word: &str) -> Option<FrameState> {
        match word {
            "WAITING" => Some(FrameState::Waiting),
            "SETUP" => Some(FrameState::Setup),
            "RUNNING" => Some(FrameState::Running),
            "SUCCEEDED" => Some(FrameState::Succeeded),
            "DEPEND" => Some(FrameState::Depend),
            "DEAD" => Some(FrameState::Dead),
            "EATEN" => Some(FrameState::Eaten),
            _ => None,
        }
    }
}

impl Word for HostState {
    ghost names = { host_state_of };

    fn of_word(word: &str) -> Option<HostState> {
        match word {
            "UP" => Some(HostState::Up),
            "DOWN" => Some(HostState::Down),
            _ => None,
        }
    }
}

impl Word for JobState {
    ghost names = { job_state_of };

    fn of_word(word: &str) -> Option<JobState> {
        match word {
            "PENDING" => Some(JobState::Pending),
            "FINISHED" => Some(JobState::Finished),
            _ => None,
        }
    }
}

impl Word for LockState {
    ghost names = { lock_of };

    fn of_word(word: &str) -> Option<LockState> {
        match word {
            "OPEN" => Some(LockState::Unlocked),
            "LOCKED" => Some(LockState::Locked),
            "NIMBY_LOCKED" => Some(LockState::NimbyLocked),
            _ => None,
        }
    }
}

impl Word for DependKind {
    ghost names = { kind_of };

    fn of_word(word: &str) -> Option<DependKind> {
        match word {
            "JOB_ON_JOB" => Some(DependKind::JobOnJob),
            "JOB_ON_LAYER" => Some(DependKind::JobOnLayer),
            "JOB_ON_FRAME" => Some(DependKind::JobOnFrame),
            "LAYER_ON_JOB" => Some(DependKind::LayerOnJob),
            "LAYER_ON_LAYER" => Some(DependKind::LayerOnLayer),
            "LAYER_ON_FRAME" => Some(DependKind::LayerOnFrame),
            "FRAME_ON_JOB" => Some(DependKind::FrameOnJob),
            "FRAME_ON_LAYER" => Some(DependKind::FrameOnLayer),
            "FRAME_ON_FRAME" => Some(DependKind::FrameOnFrame),
            "FRAME_BY_FRAME" => Some(DependKind::FrameByFrame),
            "PREVIOUS_FRAME" => Some(DependKind::PreviousFrame),
            _ => None,
        }
    }
}

impl Word for Cut {
    ghost names = { cut_of };

    fn of_word(word: &str) -> Option<Cut> {
        match word {
            "" => Some(Cut::Whole),
            "store" => Some(Cut::Store),
            "memory" => Some(Cut::Memory),
            _ => None,
        }
    }
}

impl Word for Counted {
    ghost names = { counted_of };

    fn of_word(word: &str) -> Option<Counted> {
        match word {
            "shows" => Some(Counted::Shows),
            "allocs" => Some(Counted::Allocs),
            "limits" => Some(Counted::Limits),
            "hosts" => Some(Counted::Hosts),
            "boots" => Some(Counted::Boots),
            "jobs" => Some(Counted::Jobs),
            "depends" => Some(Counted::Depends),
            "groups" => Some(Counted::Groups),
            "depend_numbers" => Some(Counted::DependNumbers),
            _ => None,
        }
    }
}
