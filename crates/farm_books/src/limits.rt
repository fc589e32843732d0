//! How many attempts run in each limit: each is counted in the limit of its frame's layer.

ghost use Rattle.std.specs.Prelude.{◌≡◌, ◌≤◌, length, IfOk};
ghost use Rattle.farm_types.specs.declared.limits.TheConstants.{MOST_LIMITS};
ghost use Rattle.farm_books.specs.Limits.{CanCount, CountsRunning, limit_of, recounted};

use farm_types::{LimitNo, LimitRow, SlotRow};
use job_book::Jobs;
use limit_book::Limits;
use std::alloc::{AllocError, Global};

/// The limit of the layer of the slot's frame.
pub(crate) fn limit_of(jobs: &Jobs, row: &SlotRow) -> Option<LimitNo>
    ensures { result ≡ limit_of jobs.now.layers row.now.frame }
{
    match &row.frame {
        None => None,
        Some(frame) => jobs.layer_limit(frame.job, frame.layer),
    }
}

/// An attempt ran in the limit or none, and one runs there now or none. Where the limit isn't there, nothing changes.
pub(crate) fn recount(limits: &mut Limits, limit: Option<LimitNo>, ran: bool, runs: bool)
    requires { CanCount limits.old limit ran runs }
    ensures counts { limits.new ≡ recounted limits.old limit ran runs }
    ensures each { length limits.old.running ≡ length limits.old.limits }
{
    let count = limits.count();
    let Some(limit) = limit else {
        return;
    };
    if usize::from(limit.0) >= count {
        return;
    }
    match (ran, runs) {
        (false, true) => limits.take(limit),
        (true, false) => limits.give(limit),
        (false, false) | (true, true) => {}
    }
}

/// The book of these limits, in which the attempts of the jobs' frames run. The rows are moved into it.
pub(crate) fn limits_of(
    alloc: Global,
    rows: Vec<LimitRow>,
    jobs: &Jobs,
) -> Result<Limits, AllocError>
    requires { length rows.items ≤ MOST_LIMITS }
    ensures rows { IfOk result (λ b. b.limits ≡ rows.items) }
    ensures running { IfOk result (λ b. CountsRunning b jobs.now.layers jobs.now.slots) }
{
    let mut limits = Limits::of_rows(alloc, rows)?;
    let slots = jobs.slots();
    for row in slots {
        recount(&mut limits, limit_of(jobs, row), false, row.proc.is_some());
    }
    Ok(limits)
}
