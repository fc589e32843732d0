//! The lists that a reply leaves, before anything has changed.

ghost use Rattle.std.specs.Prelude.{◌≡◌, IfOk};
ghost use Rattle.rqd_core.specs.Keeping.{CanInstall, Follows, IsReadyFor, installed};
ghost use Rattle.rqd_core.specs.Life.{attempts_of};
ghost use Rattle.rqd_core.specs.Replies.{first_taking};

use crate::orders::Orders;
use crate::rqd::Rqd;
use crate::running::{Running, cores_of};
use crate::taking::{Taking, launch_all, not_acked, running_among};
use farm_lines::ReportReply;
use farm_types::{Attempt, Cores, DoneItem, Items};
use std::alloc::{AllocError, Global};

/// The lists, with room for the end of each running attempt, and the orders.
#[derive(Debug, Drop)]
pub struct Planned {
    pub running: Vec<Running>,
    pub attempts: Items<Attempt>,
    pub finished: Vec<DoneItem>,
    pub orders: Orders,
}

/// What the reply to the latest report leaves: acknowledgements first, then kills, then launches.
pub(crate) fn plan(alloc: Global, rqd: &Rqd, report: ReportReply) -> Result<Planned, AllocError>
    ensures { IfOk result (λ planned. Follows rqd.now report planned) }
{
    let stops = running_among(alloc, rqd.running.as_slice(), report.kills.as_slice())?;
    let mut taking = first_taking(alloc, rqd, report.acks.as_slice())?;
    launch_all(&mut taking, report.launches.into_vec())?;
    with_room(alloc, taking, stops)
}

// The lists before the launches.
fn first_taking(alloc: Global, rqd: &Rqd, acks: &[Attempt]) -> Result<Taking, AllocError>
    ensures { IfOk result (λ taking. taking ≡ first_taking rqd.now acks.now) }
{
    let free = Cores(rqd.config.cores.0 - cores_of(rqd.running.as_slice()));
    Ok(Taking {
        running: Items::from_vec(Vec::from_slice(alloc, rqd.running.as_slice())?),
        finished: not_acked(alloc, acks, rqd.finished.as_slice())?,
        free,
        starts: Items::new(alloc),
        refused: Items::new(alloc),
    })
}

// The lists with their room, and the orders.
fn with_room(alloc: Global, taking: Taking, stops: Items<Attempt>) -> Result<Planned, AllocError>
    ensures { IfOk result (λ planned. IsReadyFor taking stops planned) }
{
    let Taking {
        running,
        finished,
        free: _free,
        starts,
        refused,
    } = taking;
    let attempts = attempts_of(alloc, running.as_slice())?;
    let mut finished = finished.into_vec();
    finished.reserve(running.len())?;
    Ok(Planned {
        running: running.into_vec(),
        attempts,
        finished,
        orders: Orders {
            starts,
            stops,
            refused,
        },
    })
}

fn attempts_of(alloc: Global, running: &[Running]) -> Result<Items<Attempt>, AllocError>
    ensures { IfOk result (λ attempts. attempts ≡ attempts_of running.now) }
{
    let mut attempts = Items::new(alloc);
    for run in running {
        attempts.push(run.attempt)?;
    }
    Ok(attempts)
}

impl Rqd {
    // Takes the lists as its own. The latest line has had its reply.
    pub(crate) fn install(&mut self, planned: Planned) -> Orders
        requires { CanInstall self.old planned }
        ensures life { self.new ≡ installed self.old planned }
        ensures orders { result ≡ planned.orders }
    {
        let Planned {
            running,
            attempts,
            finished,
            orders,
        } = planned;
        self.running = running;
        self.attempts = attempts;
        self.finished = finished;
        self.awaited = None;
        orders
    }
}
