//! The frames of a host's order, offered piece by piece until a plan is full: a layer's waiting frames, a job's layers, a show's ready jobs.

ghost use Rattle.std.specs.Prelude.{◌≡◌, ◌≤◌, ◌<◌, ◌+◌, ◌&&◌, true, length, nat_lt, slice_get, Some};
ghost use Rattle.std.specs.Vec.{vec_capacity};
ghost use Rattle.farm_types.specs.Booking.{may_book};
ghost use Rattle.farm_types.specs.Depends.{is_open};
ghost use Rattle.farm_books.specs.Reads.{takes_job};
ghost use Rattle.farm_types.specs.Farm.{layer_at, sub_at};
ghost use Rattle.farm_types.specs.declared.limits.TheConstants.{CANDIDATES_EACH, LAST_VERSION, MOST_FRAMES, MOST_SHOWS};
ghost use Rattle.farm_types.specs.Ranges.{range_numbers};
ghost use Rattle.dispatch_law.specs.ByIndex.{ranks_in_job, ranks_in_layer, ranks_in_show};
ghost use Rattle.dispatch_plan.specs.Offers.{IsBilled, IsPending, IsShowBilled, has_least_left, offered, with_candidate};

use farm_core::Farm;
use farm_types::{
    CANDIDATES_EACH, Candidate, HostNo, JobNo, LAST_VERSION, LEAST_CORES, LayerRow, ShowNo, Slot,
    SubNo, SubRow, Version,
};

/// Offers the waiting frames of a show's ready jobs, of which the subscription is billed. Where its burst is reached, none is looked at.
pub(crate) fn offer_show(
    farm: &Farm,
    host: HostNo,
    sub: &SubRow,
    show: ShowNo,
    plan: &mut Vec<Candidate>,
)
    requires within { show < MOST_SHOWS }
    requires there { sub_at farm.now sub.now.sub ≡ Some sub.now }
    requires billed { IsShowBilled farm.now host show sub.now.sub }
    requires few { length plan.old.items ≤ CANDIDATES_EACH }
    requires capacity { CANDIDATES_EACH ≤ vec_capacity plan.old }
    ensures items { plan.new.items ≡ offered plan.old.items (ranks_in_show farm.now host show) }
    ensures few { length plan.new.items ≤ CANDIDATES_EACH }
    ensures capacity { vec_capacity plan.new ≡ vec_capacity plan.old }
{
    farm.kept();
    if !has_least_left(farm, sub) {
        return;
    }
    let jobs = farm.books().jobs().ready(show);
    for job in jobs {
        if plan.len() >= CANDIDATES_EACH as usize {
            return;
        }
        offer_job(farm, host, sub.sub, *job, plan);
    }
}

// Whether the subscription's burst has the least cores of a layer left.
fn has_least_left(farm: &Farm, sub: &SubRow) -> bool
    ensures { result ≡ has_least_left farm.now sub.now }
{
    u64::from(farm.books().booked(sub.sub).0) + u64::from(LEAST_CORES) <= u64::from(sub.burst.0)
}

// Offers the waiting frames of a pending job's layers. Where the job itself shows that none may be booked, none is looked at.
fn offer_job(farm: &Farm, host: HostNo, sub: SubNo, job: JobNo, plan: &mut Vec<Candidate>)
    requires pending { IsPending farm.now job }
    requires billed { IsBilled farm.now host job sub }
    requires few { length plan.old.items ≤ CANDIDATES_EACH }
    requires capacity { CANDIDATES_EACH ≤ vec_capacity plan.old }
    ensures items { plan.new.items ≡ offered plan.old.items (ranks_in_job farm.now host job) }
    ensures few { length plan.new.items ≤ CANDIDATES_EACH }
    ensures capacity { vec_capacity plan.new ≡ vec_capacity plan.old }
{
    farm.kept();
    if !farm.books().takes_job(host, job) {
        return;
    }
    let layers = farm.books().jobs().layers_of(job);
    for layer in layers {
        offer_layer(farm, host, sub, layer, plan);
    }
}

// Offers the waiting frames of a layer, in range order, until the plan is full. Where the layer itself shows that none may be booked, none is
// looked at.
fn offer_layer(farm: &Farm, host: HostNo, sub: SubNo, layer: &LayerRow, plan: &mut Vec<Candidate>)
    requires there { layer_at farm.now layer.now.job layer.now.place ≡ Some layer.now }
    requires pending { IsPending farm.now layer.now.job }
    requires taken { takes_job farm.now host layer.now.job ≡ true }
    requires short { length (range_numbers layer.now.range) ≤ MOST_FRAMES }
    requires billed { IsBilled farm.now host layer.now.job sub }
    requires few { length plan.old.items ≤ CANDIDATES_EACH }
    requires capacity { CANDIDATES_EACH ≤ vec_capacity plan.old }
    ensures items { plan.new.items ≡ offered plan.old.items (ranks_in_layer farm.now host layer.now) }
    ensures few { length plan.new.items ≤ CANDIDATES_EACH }
    ensures capacity { vec_capacity plan.new ≡ vec_capacity plan.old }
{
    farm.kept();
    if !farm.books().takes_layer(host, sub, layer) {
        return;
    }
    let jobs = farm.books().jobs();
    let mut from = 0;
    while plan.len() < CANDIDATES_EACH as usize {
        let Some(slot) = jobs.waiting(layer.job, layer.place, from) else {
            return;
        };
        let frame = jobs.frame(slot);
        offer(farm, host, sub, slot, frame.version, plan);
        from = frame.position + 1;
    }
}

// Offers a slot's waiting frame, where its version can rise and it waits for no other: that it may be booked beside is known of its layer.
fn offer(
    farm: &Farm,
    host: HostNo,
    sub: SubNo,
    slot: Slot,
    version: Version,
    plan: &mut Vec<Candidate>,
)
    requires known { may_book farm.now slot host ≡ (nat_lt version LAST_VERSION && is_open farm.now slot) }
    requires room { length plan.old.items + 1 ≤ CANDIDATES_EACH }
    requires capacity { CANDIDATES_EACH ≤ vec_capacity plan.old }
    ensures items { plan.new.items ≡ with_candidate (may_book farm.now slot host) plan.old.items
        (record { slot = slot; version = version; sub = sub; host = host }) }
    ensures few { length plan.new.items ≤ CANDIDATES_EACH }
    ensures capacity { vec_capacity plan.new ≡ vec_capacity plan.old }
{
    if version.0 < LAST_VERSION && farm.books().is_open(slot) {
        plan.push_reserved(Candidate {
            slot,
            version,
            sub,
            host,
        });
    }
}
