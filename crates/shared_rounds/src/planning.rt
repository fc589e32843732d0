//! The plan of a round, taken under the lock.

ghost use Rattle.std.specs.Prelude.{◌≡◌, [], IfOk};
ghost use Rattle.farm_types.specs.Dispatch.{plan_for};
ghost use Rattle.farm_types.specs.Kept.{IsKeptFarm};
ghost use Rattle.booking_rule.specs.Kept.{farm_in};
ghost use Rattle.shared_bot.specs.Passes.{CaughtUp, IsFree, IsTaken};
ghost use Rattle.shared_rounds.specs.Holding.{AreDue};

use booking_table::Table;
use dispatch_plan::{dispatch_lists_each_once, plan};
use farm_keeper::Keeper;
use farm_types::{Candidate, HostNo, Items};
use shared_bot::booking_recorder::{Pass, Recorder};
use shared_bot::farm_core::Farm;
use shared_bot::{Bot, Locked, Opened, catch_up, notice};
use std::alloc::{AllocError, Global};
use std::sync::Wait;

/// The candidates for the host in the farm that the pass has then seen.
pub(crate) fn take_plan<K: Keeper, N: Opened, R: Wait>(
    rt: &R,
    alloc: Global,
    bot: &Bot<K, N>,
    pass: &mut Pass<N>,
    host: HostNo,
) -> Result<Items<Candidate>, AllocError>
    requires free { IsFree N.opening pass.old.view }
    ensures free { IsFree N.opening pass.new.view }
    ensures caught { CaughtUp pass.old pass.new [] 0 }
    ensures plan { IfOk result (λ cs. cs ≡ plan_for (farm_in pass.new.view) host) }
    ensures due { IfOk result (AreDue pass.new.view) }
{
    let mut held = bot.hold(rt);
    plan_held(alloc, &bot.table, &mut held, pass, host)
}

fn plan_held<K: Keeper, N: Opened>(
    alloc: Global,
    table: &Table,
    held: &mut Locked<K, N>,
    pass: &mut Pass<N>,
    host: HostNo,
) -> Result<Items<Candidate>, AllocError>
    requires table { table.now ≡ N.table }
    requires free { IsFree N.opening pass.old.view }
    ensures free { IsFree N.opening pass.new.view }
    ensures caught { CaughtUp pass.old pass.new [] 0 }
    ensures plan { IfOk result (λ cs. cs ≡ plan_for (farm_in pass.new.view) host) }
    ensures due { IfOk result (AreDue pass.new.view) }
{
    plan_for_host(alloc, table, &mut held.recorder, pass, host)
}

// .. in the recorder's farm.
fn plan_for_host<K: Keeper, N: Opened>(
    alloc: Global,
    table: &Table,
    recorder: &mut Recorder<K, N>,
    pass: &mut Pass<N>,
    host: HostNo,
) -> Result<Items<Candidate>, AllocError>
    requires table { table.now ≡ N.table }
    requires taken { IsTaken recorder.old }
    requires opening { recorder.old.view.opening ≡ N.opening }
    requires free { IsFree N.opening pass.old.view }
    ensures taken { IsTaken recorder.new }
    ensures opening { recorder.new.view.opening ≡ N.opening }
    ensures free { IsFree N.opening pass.new.view }
    ensures caught { CaughtUp pass.old pass.new [] 0 }
    ensures plan { IfOk result (λ cs. cs ≡ plan_for (farm_in pass.new.view) host) }
    ensures due { IfOk result (AreDue pass.new.view) }
{
    dispatch_lists_each_once();
    notice(table, recorder, pass);
    let planned = plan_now(alloc, recorder.read(), host);
    catch_up(table, recorder, pass);
    planned
}

// The plan of a farm, whose candidates are ready.
fn plan_now(alloc: Global, farm: &Farm, host: HostNo) -> Result<Items<Candidate>, AllocError>
    ensures plan { IfOk result (λ cs. cs ≡ plan_for farm.now host) }
    ensures kept { IsKeptFarm farm.now }
{
    farm.kept();
    plan(alloc, farm, host)
}
