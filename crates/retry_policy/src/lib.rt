//! What becomes of a frame whose attempt completed.
#![tactic(auto)]

ghost use Rattle.std.specs.Prelude.{◌≡◌};
ghost use Rattle.farm_types.specs.Verdict.{verdict_of};

use farm_types::{Exit, Verdict};

/// The status of a process that asks for another try, which counts as no retry.
const TRY_AGAIN: u32 = 286;

/// The status of a process that failed and asks for no other try.
const GIVEN_UP: u32 = 256;

/// The verdict on an exit of a frame that was retried so often, by its job's greatest number of retries and whether the job eats its failures. The
/// first case that applies decides: a clean exit succeeds, a process that asks for another try waits again, a job that eats its failures eats the
/// frame, one that gave up is dead, and so is a frame without a retry left; else it waits again, with one retry more. That these statuses mean this,
/// and the order of the cases, is this project's own choice.
pub fn verdict(exit: Exit, retries: u32, max: u32, auto_eat: bool) -> Verdict
    ensures { result ≡ verdict_of exit retries max auto_eat }
{
    if exit.status == 0 && exit.signal == 0 {
        Verdict::Succeeded
    } else if exit.status == TRY_AGAIN {
        Verdict::Waiting { retries }
    } else if auto_eat {
        Verdict::Eaten
    } else if exit.status == GIVEN_UP || max <= retries {
        Verdict::Dead
    } else {
        Verdict::Waiting {
            retries: retries + 1,
        }
    }
}
