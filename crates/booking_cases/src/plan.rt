//! What suits a host.

ghost use Rattle.std.specs.Prelude.{◌≡◌, ◌<◌, true, IfOk, IfSome};
ghost use Rattle.std.specs.List.{list_all};
ghost use Rattle.farm_types.specs.Booking.{suits};
ghost use Rattle.farm_types.specs.Dispatch.{candidate_suits};
ghost use Rattle.farm_types.specs.Farm as farms;

use dispatch_plan::plan;
use farm_core::Farm;
use farm_law::candidates_suit;
use farm_types::{Candidate, HostNo, Items, SUB_NUMBERS, Slot, SubNo, Version};
use std::alloc::{AllocError, Global};

/// A host, and the frames that suited it at some moment.
#[derive(Debug, Drop)]
pub struct Plan {
    pub host: HostNo,
    pub candidates: Items<Candidate>,
}

/// What suits the host now.
pub(crate) fn plan_for(alloc: Global, farm: &Farm, host: HostNo) -> Result<Plan, AllocError>
    ensures host { IfOk result (λ plan. plan.host ≡ host) }
    ensures suits { IfOk result (λ plan. list_all (candidate_suits farm.now host) plan.candidates ≡ true) }
{
    candidates_suit();
    let candidates = plan(alloc, farm, host)?;
    Ok(Plan { host, candidates })
}

/// The subscription of a candidate of that slot and version.
pub(crate) fn sub_for(plan: &Plan, slot: Slot, version: Version) -> Option<SubNo>
    ensures within { IfSome result (λ sub. sub < 1024) }
    ensures suits { (f : farms.Farm) → list_all (candidate_suits f plan.now.host) plan.now.candidates ≡ true
        → IfSome result (λ sub. suits f slot version plan.now.host sub ≡ true) }
{
    let candidate = candidate_for(plan.candidates.as_slice(), plan.host, slot, version)?;
    if u32::from(candidate.0) >= SUB_NUMBERS {
        return None;
    }
    Some(candidate)
}

// The same, whatever its number.
fn candidate_for(
    candidates: &[Candidate],
    host: HostNo,
    slot: Slot,
    version: Version,
) -> Option<SubNo>
    ensures { (f : farms.Farm) → list_all (candidate_suits f host) candidates.now ≡ true → IfSome result (λ sub. suits f slot version host sub ≡ true) }
{
    for candidate in candidates {
        if candidate.slot == slot && candidate.version == version {
            return Some(candidate.sub);
        }
    }
    None
}
