//! The lists while launches are taken.

ghost use Rattle.std.specs.Prelude.{◌≡◌, ◌≤◌, IfOk, OnOk};
ghost use Rattle.std.specs.List.{list_any};
ghost use Rattle.farm_types.specs.Run as runs;
ghost use Rattle.rqd_core.specs.Replies.{all_launched, is_done, launched, not_acked, placed, running_among, started, unfit};

use crate::limits::UNFIT_STATUS;
use crate::orders::NoFit;
use crate::running::{Running, is_run, is_same};
use farm_lines::Launch;
use farm_types::{Attempt, Cores, DoneItem, Exit, Items};
use std::alloc::{AllocError, Global};

/// The running and the finished list, the cores (hundredths of a core) that are free, and the orders so far.
#[derive(Debug, Drop)]
pub struct Taking {
    pub running: Items<Running>,
    pub finished: Items<DoneItem>,
    pub free: Cores,
    pub starts: Items<Launch>,
    pub refused: Items<NoFit>,
}

/// Takes the launches in turn.
pub(crate) fn launch_all(taking: &mut Taking, launches: Vec<Launch>) -> Result<(), AllocError>
    ensures { OnOk result (taking.new ≡ all_launched taking.old launches.items) }
{
    for launch in launches {
        take(taking, launch)?;
    }
    Ok(())
}

// Takes a launch, unless the attempt runs or has finished.
fn take(taking: &mut Taking, launch: Launch) -> Result<(), AllocError>
    ensures { OnOk result (taking.new ≡ launched taking.old launch) }
{
    if is_run(&launch.attempt, taking.running.as_slice())
        || is_done(&launch.attempt, taking.finished.as_slice())
    {
        return Ok(());
    }
    place(taking, launch)
}

// Starts a launch, or finishes it where it doesn't fit.
fn place(taking: &mut Taking, launch: Launch) -> Result<(), AllocError>
    ensures { OnOk result (taking.new ≡ placed taking.old launch) }
{
    if launch.cores <= taking.free {
        start(taking, launch)
    } else {
        refuse(taking, &launch.attempt)
    }
}

fn start(taking: &mut Taking, launch: Launch) -> Result<(), AllocError>
    requires { launch.cores ≤ taking.old.free }
    ensures { OnOk result (taking.new ≡ started taking.old launch) }
{
    let attempt = launch.attempt;
    let cores = launch.cores;
    taking.running.push(Running { attempt, cores })?;
    taking.free = Cores(taking.free.0 - cores.0);
    taking.starts.push(launch)
}

fn refuse(taking: &mut Taking, attempt: &Attempt) -> Result<(), AllocError>
    ensures { OnOk result (taking.new ≡ unfit taking.old attempt.now) }
{
    let exit = Exit {
        status: UNFIT_STATUS,
        signal: 0,
    };
    let free = Some(taking.free);
    taking.finished.push(done_item(attempt, exit, free))?;
    taking.refused.push(no_fit(attempt, taking.free))
}

/// A completion, with the free cores (hundredths of a core) where they are told.
pub(crate) fn done_item(attempt: &Attempt, exit: Exit, free: Option<Cores>) -> DoneItem
    ensures { result ≡ record { attempt = attempt.now; exit = exit; free = free } }
{
    DoneItem {
        attempt: *attempt,
        exit,
        free,
    }
}

fn no_fit(attempt: &Attempt, free: Cores) -> NoFit
    ensures { result ≡ record { attempt = attempt.now; free = free } }
{
    NoFit {
        attempt: *attempt,
        free,
    }
}

// Whether the attempt is one of those that are done.
fn is_done(attempt: &Attempt, finished: &[DoneItem]) -> bool
    ensures { result ≡ is_done attempt.now finished.now }
{
    finished.iter().any(|item| is_same(&item.attempt, attempt))
}

/// The completions that aren't acknowledged.
pub(crate) fn not_acked(
    alloc: Global,
    acks: &[Attempt],
    finished: &[DoneItem],
) -> Result<Items<DoneItem>, AllocError>
    ensures { IfOk result (λ left. left ≡ not_acked acks.now finished.now) }
{
    let mut left = Items::new(alloc);
    for item in finished {
        if is_listed(&item.attempt, acks) {
            continue;
        }
        left.push(*item)?;
    }
    Ok(left)
}

fn is_listed(attempt: &Attempt, attempts: &[Attempt]) -> bool
    ensures { result ≡ list_any (runs.is_same attempt.now) attempts.now }
{
    attempts.iter().any(|other| is_same(attempt, other))
}

/// Those of the attempts that run.
pub(crate) fn running_among(
    alloc: Global,
    running: &[Running],
    attempts: &[Attempt],
) -> Result<Items<Attempt>, AllocError>
    ensures { IfOk result (λ found. found ≡ running_among running.now attempts.now) }
{
    let mut found = Items::new(alloc);
    for attempt in attempts {
        if is_run(attempt, running) {
            found.push(*attempt)?;
        }
    }
    Ok(found)
}
