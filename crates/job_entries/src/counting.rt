//! How a frame's change of state changes the counts of its job.

ghost use Rattle.std.specs.Prelude.{◌≡◌, ◌<◌, ◌≤◌};
ghost use Rattle.farm_types.specs.declared.limits.TheConstants.{SLOT_LIMIT};
ghost use Rattle.job_entries.specs.Counting.{CanMove, counted_in, counted_out, moved, new_counts, part};

use crate::counts::Counts;
use farm_types::FrameState;

/// The counts with a frame gone from one state into another.
pub(crate) fn moved(counts: Counts, old: FrameState, new: FrameState) -> Counts
    requires { CanMove old new counts }
    ensures { result ≡ moved old new counts }
{
    counted_in(counted_out(counts, old), new)
}

// One fewer in that state.
fn counted_out(counts: Counts, state: FrameState) -> Counts
    requires { 0 < part state counts }
    ensures { result ≡ counted_out state counts }
{
    let mut fewer = counts;
    match state {
        FrameState::Waiting => fewer.waiting -= 1,
        FrameState::Setup => fewer.setup -= 1,
        FrameState::Running => fewer.running -= 1,
        FrameState::Succeeded => fewer.succeeded -= 1,
        FrameState::Depend => fewer.depend -= 1,
        FrameState::Dead => fewer.dead -= 1,
        FrameState::Eaten => fewer.eaten -= 1,
    }
    fewer
}

/// One more in that state.
pub fn counted_in(counts: Counts, state: FrameState) -> Counts
    requires { part state counts ≤ SLOT_LIMIT }
    ensures { result ≡ counted_in state counts }
{
    let mut more = counts;
    match state {
        FrameState::Waiting => more.waiting += 1,
        FrameState::Setup => more.setup += 1,
        FrameState::Running => more.running += 1,
        FrameState::Succeeded => more.succeeded += 1,
        FrameState::Depend => more.depend += 1,
        FrameState::Dead => more.dead += 1,
        FrameState::Eaten => more.eaten += 1,
    }
    more
}

/// The counts of a job of so many frames, all of which wait.
pub fn all_waiting(frames: u32) -> Counts
    ensures { result ≡ new_counts frames }
{
    Counts {
        waiting: frames,
        setup: 0,
        running: 0,
        succeeded: 0,
        depend: 0,
        dead: 0,
        eaten: 0,
    }
}
