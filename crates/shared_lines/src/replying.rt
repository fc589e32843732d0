//! The reply to a report that was recorded, behind its round.

ghost use Rattle.std.specs.Prelude.{◌≡◌, []};
ghost use Rattle.booking_rule.specs.Kept.{farm_in};
ghost use Rattle.farm_lines.specs.Reply.{report_reply};
ghost use Rattle.line_answers.specs.Launches.{told};
ghost use Rattle.line_answers.specs.Lines.{IsLineOf, shown};
ghost use Rattle.shared_rounds.specs.shared_bot.specs.Passes.{CaughtUp, IsFree, IsTaken};

use booking_table::Table;
use farm_keeper::Keeper;
use farm_types::{Attempt, Cut, HeardAct, HostNo};
use line_answers::booking_recorder::{Pass, Recorder};
use line_answers::{ReplyLine, report_line};
use shared_rounds::shared_bot::{Bot, Locked, Opened, catch_up, notice};
use std::alloc::Global;
use std::sync::Wait;

/// Takes the lock, and gives the line of a report's reply.
pub(crate) fn reply_locked<K: Keeper, N: Opened, R: Wait>(
    rt: &R,
    alloc: Global,
    bot: &Bot<K, N>,
    pass: &mut Pass<N>,
    host: HostNo,
    heard: &HeardAct,
    running: &[Attempt],
    cut: Cut,
) -> ReplyLine
    requires free { IsFree N.opening pass.old.view }
    ensures free { IsFree N.opening pass.new.view }
    ensures caught { CaughtUp pass.old pass.new [] 0 }
    ensures line { IsLineOf (report_reply (farm_in pass.new.view) host (told heard.now running.now) cut) (shown result) }
{
    let mut held = bot.hold(rt);
    reply_held(
        alloc, &bot.table, &mut held, pass, host, heard, running, cut,
    )
}

fn reply_held<K: Keeper, N: Opened>(
    alloc: Global,
    table: &Table,
    held: &mut Locked<K, N>,
    pass: &mut Pass<N>,
    host: HostNo,
    heard: &HeardAct,
    running: &[Attempt],
    cut: Cut,
) -> ReplyLine
    requires table { table.now ≡ N.table }
    requires free { IsFree N.opening pass.old.view }
    ensures free { IsFree N.opening pass.new.view }
    ensures caught { CaughtUp pass.old pass.new [] 0 }
    ensures line { IsLineOf (report_reply (farm_in pass.new.view) host (told heard.now running.now) cut) (shown result) }
{
    reply(
        alloc,
        table,
        &mut held.recorder,
        pass,
        host,
        heard,
        running,
        cut,
    )
}

// Writes the line over the farm, whose journal the pass has then seen.
fn reply<K: Keeper, N: Opened>(
    alloc: Global,
    table: &Table,
    recorder: &mut Recorder<K, N>,
    pass: &mut Pass<N>,
    host: HostNo,
    heard: &HeardAct,
    running: &[Attempt],
    cut: Cut,
) -> ReplyLine
    requires table { table.now ≡ N.table }
    requires taken { IsTaken recorder.old }
    requires opening { recorder.old.view.opening ≡ N.opening }
    requires free { IsFree N.opening pass.old.view }
    ensures taken { IsTaken recorder.new }
    ensures opening { recorder.new.view.opening ≡ N.opening }
    ensures free { IsFree N.opening pass.new.view }
    ensures caught { CaughtUp pass.old pass.new [] 0 }
    ensures line { IsLineOf (report_reply (farm_in pass.new.view) host (told heard.now running.now) cut) (shown result) }
{
    notice(table, recorder, pass);
    let line = report_line(alloc, recorder.read(), host, heard, running, cut);
    catch_up(table, recorder, pass);
    line
}
