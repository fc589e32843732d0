//! The completions that change a farm.

ghost use Rattle.std.specs.Prelude.{◌≡◌, Some, IfOk, OnOk};
ghost use Rattle.farm_types.specs.declared.entry.Act.TheVariants as acts;
ghost use Rattle.farm_types.specs.Farm.{host_named};
ghost use Rattle.farm_types.specs.Formed.{IsFormed};
ghost use Rattle.farm_types.specs.Run.{is_same};
ghost use Rattle.farm_types.specs.Step.{after};
ghost use Rattle.world_law.specs.Ends.{ends_at, ends_in};
ghost use Rattle.world_answers.specs.Ending.{is_ended, is_over, ticked};

use crate::committing::commit;
use farm_types::{Act, Attempt, DoneItem, Entry, FarmFault, HeardAct, HostNo, Items};
use line_answers::farm_core::Farm;
use std::alloc::{AllocError, Global};

/// The completions of a report of that host that change the farm, in order.
pub(crate) fn ends_of(
    alloc: Global,
    farm: &Farm,
    heard: &HeardAct,
    host: HostNo,
    moment: u64,
) -> Result<Items<DoneItem>, AllocError>
    requires { host_named farm.now heard.now.host ≡ Some host }
    ensures { IfOk result (λ ends. ends ≡ ends_at farm.now (record { moment = moment; act = acts.Heard heard.now })) }
{
    let now = at(alloc, farm, moment)?;
    let ends = ends_in(alloc, &now, host, heard.boot, heard.done.as_slice())?;
    Ok(ends)
}

// The farm at the moment, where each unheard host is down and its attempts are lost.
fn at(alloc: Global, farm: &Farm, moment: u64) -> Result<Farm, AllocError>
    ensures { IfOk result (λ now. now ≡ ticked farm.now moment) }
{
    let mut copy = farm.copy(alloc)?;
    tick(alloc, &mut copy, moment)?;
    Ok(copy)
}

// Time passes up to the moment.
fn tick(alloc: Global, farm: &mut Farm, moment: u64) -> Result<(), AllocError>
    ensures { OnOk result (farm.new ≡ ticked farm.old moment) }
{
    let entry = Entry {
        moment,
        act: Act::Tick,
    };
    tick_by(alloc, farm, &entry)
}

// That no farm refuses.
fn tick_by(alloc: Global, farm: &mut Farm, entry: &Entry) -> Result<(), AllocError>
    requires formed { IsFormed entry.now }
    requires ticks { entry.now.act ≡ acts.Tick }
    ensures { OnOk result (farm.new ≡ after farm.old entry.now) }
{
    match commit(alloc, farm, entry) {
        Ok(()) => Ok(()),
        Err(FarmFault::Refused { .. }) => unreachable!(),
        Err(FarmFault::NoMemory) => Err(AllocError),
    }
}

// Those of the completions that change the farm, one after the other: of each attempt that is live the first one.
fn ends_in(
    alloc: Global,
    farm: &Farm,
    host: HostNo,
    boot: u32,
    done: &[DoneItem],
) -> Result<Items<DoneItem>, AllocError>
    ensures { IfOk result (λ ends. ends ≡ ends_in farm.now host boot done.now) }
{
    let mut ends = Items::new(alloc);
    for item in done {
        if is_over(farm, host, boot, ends.as_slice(), item) {
            continue;
        }
        ends.push(*item)?;
    }
    Ok(ends)
}

// Whether the completion is of an attempt that isn't live, or that ended by one of these.
fn is_over(farm: &Farm, host: HostNo, boot: u32, ends: &[DoneItem], item: &DoneItem) -> bool
    ensures { result ≡ is_over farm.now host boot ends.now item.now }
{
    if !farm.books().is_live(host, boot, item.attempt) {
        return true;
    }
    is_ended(ends, item.attempt)
}

// Whether a completion of the attempt is among these.
fn is_ended(ends: &[DoneItem], attempt: Attempt) -> bool
    ensures { result ≡ is_ended ends.now attempt }
{
    ends.iter().any(|end| is_same(&end.attempt, &attempt))
}

// Whether both name one attempt.
fn is_same(a: &Attempt, b: &Attempt) -> bool
    ensures { result ≡ is_same a.now b.now }
{
    a.slot == b.slot && a.version == b.version
}
