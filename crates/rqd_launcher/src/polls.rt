//! Polling what runs.
ghost use Rattle.std.specs.Prelude.{◌≡◌, ◌<◌, ◌∷◌, [], true, List, Some, length, slice_get, if◌then◌else◌, IfOk};
ghost use Rattle.rqd_core.specs.Life.{attempts_of, is_run, without};
ghost use Rattle.rqd_launcher.specs.declared.call.SpawnCall.{SpawnCall};
ghost use Rattle.cue_io.specs.Growth.{Grows};
ghost use Rattle.rqd_launcher.specs.Carries.{Carries, poll_of, polls_of};

use crate::spawner::{SpawnFault, Spawner};
use farm_types::Attempt;
use rqd_core::Rqd;
use std::alloc::{AllocError, Global};

/// Polls each running attempt once, in order, and tells RQD of those that have ended. Where a poll fails the attempt runs on. Where memory runs out, the
/// attempts before are polled and the rest are not.
pub fn poll_all<P: Spawner>(alloc: Global, rqd: &mut Rqd, spawner: &mut P) -> Result<(), AllocError>
    ensures { (told : List SpawnCall)
        × Carries (polls_of rqd.old) result told rqd.old rqd.new (P.faults spawner.old) (P.faults spawner.new)
        × Grows (P.calls spawner.old) (P.calls spawner.new) told }
{
    let mut place = 0;
    'attempts: while place < rqd.running().len() {
        let attempt = attempt_at(rqd, place);
        // The attempts behind one that has ended move up by one.
        if poll(alloc, rqd, &attempt, spawner)? {
            continue;
        }
        place += 1;
    }
    Ok(())
}

// The running attempt at this place.
fn attempt_at(rqd: &Rqd, place: usize) -> Attempt
    requires { place < length (attempts_of rqd.now.running) }
    ensures { slice_get (attempts_of rqd.now.running) place ≡ Some result }
{
    rqd.running().as_slice()[place]
}

// Polls a running attempt, and says whether it has ended.
fn poll<P: Spawner>(
    alloc: Global,
    rqd: &mut Rqd,
    attempt: &Attempt,
    spawner: &mut P,
) -> Result<bool, AllocError>
    requires { is_run attempt.now rqd.old.running ≡ true }
    ensures polled { (told : List SpawnCall)
        × Carries (poll_of attempt.now ∷ []) result told rqd.old rqd.new (P.faults spawner.old) (P.faults spawner.new)
        × Grows (P.calls spawner.old) (P.calls spawner.new) told }
    ensures running { IfOk result (λ ended. rqd.new.running ≡ (if ended then without attempt.now rqd.old.running else rqd.old.running)) }
{
    match spawner.poll(alloc, *attempt) {
        Ok(Some(exit)) => {
            rqd.ended(*attempt, exit);
            Ok(true)
        }
        Ok(None) | Err(SpawnFault::Failed) => Ok(false),
        Err(SpawnFault::NoMemory) => Err(AllocError),
    }
}
