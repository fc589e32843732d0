//! Carrying out orders.
ghost use Rattle.std.specs.Prelude.{◌≡◌, ◌∷◌, [], true, List};
ghost use Rattle.rqd_core.specs.Keeping.{AreStarted};
ghost use Rattle.rqd_core.specs.Life.{Life, is_run};
ghost use Rattle.rqd_launcher.specs.declared.call.SpawnCall.{SpawnCall};
ghost use Rattle.cue_io.specs.Growth.{Grows};
ghost use Rattle.rqd_launcher.specs.Carries.{Carries, start_of, starts_of, stop_of, stops_of, tasks_of};

use crate::spawner::{SpawnFault, Spawner};
use farm_lines::Launch;
use farm_types::{Attempt, Exit};
use rqd_core::{Orders, Rqd};
use std::alloc::{AllocError, Global};

// How an attempt ended that couldn't be started.
const FAILED_START: Exit = Exit {
    status: 1,
    signal: 0,
};

/// Does what orders say: the starts, then the stops, each in order. An attempt whose start fails has ended, with status 1 and signal 0; one whose stop fails
/// runs on. Where memory runs out, what came before is done and the rest is not.
pub fn carry_out<P: Spawner>(
    alloc: Global,
    rqd: &mut Rqd,
    orders: &Orders,
    spawner: &mut P,
) -> Result<(), AllocError>
    requires { AreStarted orders.now.starts rqd.old.running }
    ensures { (told : List SpawnCall)
        × Carries (tasks_of orders.now) result told rqd.old rqd.new (P.faults spawner.old) (P.faults spawner.new)
        × Grows (P.calls spawner.old) (P.calls spawner.new) told }
{
    start_all(alloc, rqd, orders.starts.as_slice(), spawner)?;
    stop_all(alloc, orders.stops.as_slice(), spawner)
}

// Starts the attempts in turn.
fn start_all<P: Spawner>(
    alloc: Global,
    rqd: &mut Rqd,
    starts: &[Launch],
    spawner: &mut P,
) -> Result<(), AllocError>
    requires { AreStarted starts.now rqd.old.running }
    ensures { (told : List SpawnCall)
        × Carries (starts_of starts.now) result told rqd.old rqd.new (P.faults spawner.old) (P.faults spawner.new)
        × Grows (P.calls spawner.old) (P.calls spawner.new) told }
{
    for launch in starts {
        start(alloc, rqd, launch, spawner)?;
    }
    Ok(())
}

// Starts an attempt, which has ended where that fails.
fn start<P: Spawner>(
    alloc: Global,
    rqd: &mut Rqd,
    launch: &Launch,
    spawner: &mut P,
) -> Result<(), AllocError>
    requires { is_run launch.now.attempt rqd.old.running ≡ true }
    ensures { (told : List SpawnCall)
        × Carries (start_of launch.now ∷ []) result told rqd.old rqd.new (P.faults spawner.old) (P.faults spawner.new)
        × Grows (P.calls spawner.old) (P.calls spawner.new) told }
{
    match spawner.start(alloc, launch.attempt, launch.command.as_str()) {
        Ok(()) => Ok(()),
        Err(SpawnFault::Failed) => {
            rqd.ended(launch.attempt, FAILED_START);
            Ok(())
        }
        Err(SpawnFault::NoMemory) => Err(AllocError),
    }
}

// Stops the attempts in turn, which changes no life.
fn stop_all<P: Spawner>(alloc: Global, stops: &[Attempt], spawner: &mut P) -> Result<(), AllocError>
    ensures { (told : List SpawnCall)
        × ((life : Life) → Carries (stops_of stops.now) result told life life (P.faults spawner.old) (P.faults spawner.new))
        × Grows (P.calls spawner.old) (P.calls spawner.new) told }
{
    for attempt in stops {
        stop(alloc, *attempt, spawner)?;
    }
    Ok(())
}

// Stops an attempt, which runs on, also where that fails.
fn stop<P: Spawner>(alloc: Global, attempt: Attempt, spawner: &mut P) -> Result<(), AllocError>
    ensures { (told : List SpawnCall)
        × ((life : Life) → Carries (stop_of attempt ∷ []) result told life life (P.faults spawner.old) (P.faults spawner.new))
        × Grows (P.calls spawner.old) (P.calls spawner.new) told }
{
    match spawner.stop(alloc, attempt) {
        Ok(()) | Err(SpawnFault::Failed) => Ok(()),
        Err(SpawnFault::NoMemory) => Err(AllocError),
    }
}
