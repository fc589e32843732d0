//! Who waits unmet by depends that come, and which frames they block.

ghost use Rattle.std.specs.Prelude.{◌≡◌, filter, IfOk};
ghost use Rattle.farm_depends.specs.Coming.{unmet_by, waits_at};

use depend_book::Depends;
use farm_types::{Group, Items, Slot};
use job_book::Jobs;
use std::alloc::{AllocError, Global};

/// The frames that wait in those groups that wouldn't be met at once, group by group.
pub(crate) fn unmet_waiters(
    alloc: Global,
    depends: &Depends,
    groups: &[Group],
) -> Result<Items<Slot>, AllocError>
    ensures { IfOk result (λ slots. slots ≡ unmet_by depends.now.graph.done groups.now) }
{
    let mut slots = Vec::new(alloc);
    for group in groups {
        if depends.is_met_at_once(group) {
            continue;
        }
        slots.extend_from_slice(group.waiters.as_slice())?;
    }
    Ok(Items::from_vec(slots))
}

/// Those of the frames that wait to be booked.
pub(crate) fn waiting_among(
    alloc: Global,
    jobs: &Jobs,
    slots: &[Slot],
) -> Result<Items<Slot>, AllocError>
    ensures { IfOk result (λ waiting. waiting ≡ filter (waits_at jobs.now.slots) slots.now) }
{
    let mut waiting = Items::new(alloc);
    for slot in slots {
        if !waits_at(jobs, *slot) {
            continue;
        }
        waiting.push(*slot)?;
    }
    Ok(waiting)
}

// Whether the slot's frame waits to be booked.
fn waits_at(jobs: &Jobs, slot: Slot) -> bool
    ensures { result ≡ waits_at jobs.now.slots slot }
{
    let Some(row) = jobs.row(slot) else {
        return false;
    };
    let Some(frame) = &row.frame else {
        return false;
    };
    frame.state.is_waiting()
}
