//! Recording what a report tells, beside others.

ghost use Rattle.std.specs.Prelude.{◌≡◌};
ghost use mathlib.Core.List.{IsPrefix};
ghost use Rattle.farm_types.specs.Formed.{IsFormed};
ghost use Rattle.line_answers.specs.Asking.{IsNoBooking};
ghost use Rattle.shared_rounds.specs.shared_bot.specs.Passes.{IsFree, IsTaken};
ghost use Rattle.shared_lines.specs.Hearing.{HearsBeside};

use booking_table::Table;
use farm_keeper::Keeper;
use farm_types::{Entry, HostNo};
use line_answers::booking_recorder::{CommitRefusal, Pass, Recorder};
use line_answers::hear;
use shared_rounds::shared_bot::{Bot, Locked, Opened, catch_up, notice};
use std::alloc::Global;
use std::sync::Wait;

/// Takes the lock, and records a report's entry.
pub(crate) fn hear_locked<K: Keeper, N: Opened, R: Wait>(
    rt: &R,
    alloc: Global,
    bot: &Bot<K, N>,
    pass: &mut Pass<N>,
    entry: &Entry,
) -> Result<Option<HostNo>, CommitRefusal>
    requires formed { IsFormed entry.now }
    requires unbooked { IsNoBooking entry.now.act }
    requires free { IsFree N.opening pass.old.view }
    ensures free { IsFree N.opening pass.new.view }
    ensures hears { HearsBeside pass.old entry.now result pass.new }
    ensures grows { IsPrefix pass.old.view.journal pass.new.view.journal }
{
    let mut held = bot.hold(rt);
    hear_held(alloc, &bot.table, &mut held, pass, entry)
}

fn hear_held<K: Keeper, N: Opened>(
    alloc: Global,
    table: &Table,
    held: &mut Locked<K, N>,
    pass: &mut Pass<N>,
    entry: &Entry,
) -> Result<Option<HostNo>, CommitRefusal>
    requires table { table.now ≡ N.table }
    requires formed { IsFormed entry.now }
    requires unbooked { IsNoBooking entry.now.act }
    requires free { IsFree N.opening pass.old.view }
    ensures free { IsFree N.opening pass.new.view }
    ensures hears { HearsBeside pass.old entry.now result pass.new }
    ensures grows { IsPrefix pass.old.view.journal pass.new.view.journal }
{
    hear_in(alloc, table, &mut held.recorder, pass, entry)
}

// Records the entry for the pass, which then has its receipt, and says which host it is of.
fn hear_in<K: Keeper, N: Opened>(
    alloc: Global,
    table: &Table,
    recorder: &mut Recorder<K, N>,
    pass: &mut Pass<N>,
    entry: &Entry,
) -> Result<Option<HostNo>, CommitRefusal>
    requires table { table.now ≡ N.table }
    requires taken { IsTaken recorder.old }
    requires opening { recorder.old.view.opening ≡ N.opening }
    requires formed { IsFormed entry.now }
    requires unbooked { IsNoBooking entry.now.act }
    requires free { IsFree N.opening pass.old.view }
    ensures taken { IsTaken recorder.new }
    ensures opening { recorder.new.view.opening ≡ N.opening }
    ensures free { IsFree N.opening pass.new.view }
    ensures hears { HearsBeside pass.old entry.now result pass.new }
    ensures grows { IsPrefix pass.old.view.journal pass.new.view.journal }
{
    notice(table, recorder, pass);
    let came = hear(alloc, table, recorder, entry);
    catch_up(table, recorder, pass);
    came
}
