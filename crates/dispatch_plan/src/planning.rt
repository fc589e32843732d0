//! The frames that are offered to a host.

ghost use Rattle.std.specs.Prelude.{ℕ, ◌≡◌, ◌≤◌, ◌<◌, [], false, length, slice_get, IfOk, Some};
ghost use Rattle.std.specs.List.{flat_map};
ghost use Rattle.std.specs.Vec.{vec_capacity};
ghost use Rattle.farm_types.specs.Dispatch.{plan_for};
ghost use Rattle.farm_types.specs.Step.{lists_of};
ghost use Rattle.farm_types.specs.declared.limits.TheConstants.{CANDIDATES_EACH, MOST_SHOWS};
ghost use Rattle.job_book.specs.Index.{ready_of};
ghost use Rattle.dispatch_law.specs.ByIndex.{ranks_in_show, show_of};
ghost use Rattle.dispatch_plan.specs.Offers.{AreBilled, has_least_free, offered};

use crate::offers::offer_show;
use crate::subs::{show_of, subs_in_order};
use farm_core::Farm;
use farm_types::{
    CANDIDATES_EACH, Candidate, HostNo, HostRow, Items, LEAST_CORES, LEAST_MEMORY, ShowNo, SubRow,
};
use std::alloc::{AllocError, Global};

/// The first 64 frames that may be booked on a host, in the order of dispatch: subscriptions by what is booked of their
/// size, ties by the show's name; jobs by priority, the highest first, then by number; layers and frames in order. Only
/// waiting frames of ready jobs are looked at, and no more once 64 are found.
pub fn plan(alloc: Global, farm: &Farm, host: HostNo) -> Result<Items<Candidate>, AllocError>
    ensures { IfOk result (λ cs. cs ≡ plan_for farm.now host) }
{
    match farm.books().host(host) {
        None => Ok(Items::new(alloc)),
        Some(row) => Ok(Items::from_vec(candidates(alloc, farm, host, row)?)),
    }
}

// The plan for a host that is there.
fn candidates(
    alloc: Global,
    farm: &Farm,
    host: HostNo,
    row: &HostRow,
) -> Result<Vec<Candidate>, AllocError>
    requires { slice_get farm.now.hosts host ≡ Some row.now }
    ensures { IfOk result (λ plan. plan.items ≡ plan_for farm.now host) }
{
    farm.kept();
    if !row.takes_frames() {
        return Ok(Vec::new(alloc));
    }
    if !has_least_free(farm, host, row) {
        return Ok(Vec::new(alloc));
    }
    if !has_ready(farm) {
        return Ok(Vec::new(alloc));
    }
    let subs = subs_in_order(alloc, farm, row.alloc)?;
    let mut plan = Vec::with_capacity(alloc, CANDIDATES_EACH as usize)?;
    offer_subs(farm, host, subs.as_slice(), &mut plan);
    Ok(plan)
}

// Whether the host has the least amounts of a layer free.
fn has_least_free(farm: &Farm, host: HostNo, row: &HostRow) -> bool
    ensures { result ≡ has_least_free farm.now host row.now }
{
    let (cores, memory) = farm.used(host);
    u64::from(cores.0) + u64::from(LEAST_CORES) <= u64::from(row.cores.0)
        && u128::from(memory.0) + u128::from(LEAST_MEMORY) <= u128::from(row.memory.0)
}

// Whether any show has a ready job.
fn has_ready(farm: &Farm) -> bool
    ensures { result ≡ false → (show : ℕ) → show < length farm.now.shows → ready_of (lists_of farm.now) show ≡ [] }
{
    let shows = farm.books().count_shows();
    for show in 0..shows {
        if is_ready(farm, ShowNo(show as u16)) {
            return true;
        }
    }
    false
}

// Whether the show has a ready job.
fn is_ready(farm: &Farm, show: ShowNo) -> bool
    requires { show < MOST_SHOWS }
    ensures { result ≡ false → ready_of (lists_of farm.now) show ≡ [] }
{
    !farm.books().jobs().ready(show).is_empty()
}

// Offers the waiting frames of the subscriptions' shows, in turn.
fn offer_subs(farm: &Farm, host: HostNo, subs: &[SubRow], plan: &mut Vec<Candidate>)
    requires billed { AreBilled farm.now host subs.now }
    requires few { length plan.old.items ≤ CANDIDATES_EACH }
    requires capacity { CANDIDATES_EACH ≤ vec_capacity plan.old }
    ensures { plan.new.items ≡ offered plan.old.items (flat_map (λ s. ranks_in_show farm.now host (show_of s)) subs.now) }
{
    for sub in subs {
        offer_show(farm, host, sub, show_of(sub.sub), plan);
    }
}
