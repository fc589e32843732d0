//! Answering a list beside others.

ghost use Rattle.std.specs.Prelude.{◌≡◌, ℕ, []};
ghost use mathlib.Core.List.{IsPrefix};
ghost use Rattle.farm_lines.specs.Lists.{page_listed};
ghost use Rattle.farm_lines.specs.Transcript.{list_reply};
ghost use Rattle.booking_rule.specs.Kept.{farm_in};
ghost use Rattle.line_answers.specs.Lines.{IsLineOf, shown};
ghost use Rattle.shared_rounds.specs.shared_bot.specs.Passes.{CaughtUp, IsFree, IsTaken};
ghost use Rattle.shared_lines.specs.Answered.{IsListedAt};

use booking_table::Table;
use farm_keeper::Keeper;
use farm_lines::Query;
use line_answers::booking_recorder::{Pass, Recorder};
use line_answers::{ReplyLine, answer_list};
use shared_rounds::shared_bot::{Bot, Locked, Opened, catch_up, notice};
use std::alloc::Global;
use std::sync::Wait;

/// Answers a list from the farm as it is, which no moment changes, and lets the question go.
pub(crate) fn answer_query<K: Keeper, N: Opened, R: Wait>(
    rt: &R,
    alloc: Global,
    bot: &Bot<K, N>,
    pass: &mut Pass<N>,
    query: Query,
) -> ReplyLine
    requires free { IsFree N.opening pass.old.view }
    ensures free { IsFree N.opening pass.new.view }
    ensures answer { (moment : ℕ) → IsListedAt pass.old query moment (shown result) pass.new }
    ensures grows { IsPrefix pass.old.view.journal pass.new.view.journal }
{
    let mut held = bot.hold(rt);
    list_held(alloc, &bot.table, &mut held, pass, query)
}

fn list_held<K: Keeper, N: Opened>(
    alloc: Global,
    table: &Table,
    held: &mut Locked<K, N>,
    pass: &mut Pass<N>,
    query: Query,
) -> ReplyLine
    requires table { table.now ≡ N.table }
    requires free { IsFree N.opening pass.old.view }
    ensures free { IsFree N.opening pass.new.view }
    ensures caught { CaughtUp pass.old pass.new [] 0 }
    ensures line { IsLineOf (list_reply (page_listed (farm_in pass.new.view) query)) (shown result) }
{
    list(alloc, table, &mut held.recorder, pass, query)
}

// Answers the list, and the pass has then seen the journal of the farm that it shows.
fn list<K: Keeper, N: Opened>(
    alloc: Global,
    table: &Table,
    recorder: &mut Recorder<K, N>,
    pass: &mut Pass<N>,
    query: Query,
) -> ReplyLine
    requires table { table.now ≡ N.table }
    requires taken { IsTaken recorder.old }
    requires opening { recorder.old.view.opening ≡ N.opening }
    requires free { IsFree N.opening pass.old.view }
    ensures taken { IsTaken recorder.new }
    ensures opening { recorder.new.view.opening ≡ N.opening }
    ensures free { IsFree N.opening pass.new.view }
    ensures caught { CaughtUp pass.old pass.new [] 0 }
    ensures line { IsLineOf (list_reply (page_listed (farm_in pass.new.view) query)) (shown result) }
{
    notice(table, recorder, pass);
    let line = answer_list(alloc, recorder.read(), query);
    catch_up(table, recorder, pass);
    line
}
