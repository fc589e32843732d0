//! Answering a report beside others.

ghost use Rattle.std.specs.Prelude.{IfOk};
ghost use mathlib.Core.List.{IsPrefix};
ghost use Rattle.farm_lines.specs.Asked.{heard_entry};
ghost use Rattle.farm_lines.specs.declared.report.Report.{Report};
ghost use Rattle.farm_types.specs.Formed.{IsFormed};
ghost use Rattle.line_answers.specs.Launches.{told};
ghost use Rattle.line_answers.specs.booking_recorder.specs.Passing.{Passing};
ghost use Rattle.line_answers.specs.Lines.{shown};
ghost use Rattle.line_answers.specs.Reports.{IsReport, TellsHost};
ghost use Rattle.shared_rounds.specs.shared_bot.specs.Passes.{IsFree};
ghost use Rattle.shared_lines.specs.Beside.{AnswersReportBeside};
ghost use Rattle.shared_lines.specs.Hearing.{HearsBeside};
ghost use Rattle.shared_lines.specs.Reported.{IsRepliedBehind};

use crate::hearing::hear_locked;
use crate::replying::reply_locked;
use farm_keeper::Keeper;
use farm_lines::Report;
use farm_types::{Act, Attempt, Entry, HeardAct, HostNo};
use line_answers::booking_recorder::{CommitRefusal, Pass};
use line_answers::{ReplyLine, heard_by, other_line, unrecorded_reply};
use shared_rounds::shared_bot::{Bot, Opened};
use shared_rounds::{Gate, book_round};
use std::alloc::Global;
use std::sync::Wait;

/// Answers a report: records it under the lock, walks its round without it, and gives the line of its reply by the farm behind the round.
pub(crate) fn answer_report<K: Keeper, N: Opened, G: Gate, R: Wait>(
    rt: &R,
    alloc: Global,
    bot: &Bot<K, N>,
    pass: &mut Pass<N>,
    gate: &mut G,
    report: Report,
    moment: u64,
) -> ReplyLine
    requires formed { IsFormed (heard_entry report moment) }
    requires free { IsFree N.opening pass.old.view }
    ensures free { IsFree N.opening pass.new.view }
    ensures answer { AnswersReportBeside pass.old report moment (shown result) pass.new }
    ensures grows { IsPrefix pass.old.view.journal pass.new.view.journal }
{
    let entry = Entry {
        moment,
        act: Act::Heard(report.heard),
    };
    let came = hear_locked(rt, alloc, bot, pass, &entry);
    answer_heard(
        rt,
        alloc,
        bot,
        pass,
        gate,
        came,
        &entry.act,
        report.running.as_slice(),
        moment,
    )
}

// What is replied once the report was recorded, with its round, or wasn't.
fn answer_heard<K: Keeper, N: Opened, G: Gate, R: Wait>(
    rt: &R,
    alloc: Global,
    bot: &Bot<K, N>,
    pass: &mut Pass<N>,
    gate: &mut G,
    came: Result<Option<HostNo>, CommitRefusal>,
    act: &Act,
    running: &[Attempt],
    moment: u64,
) -> ReplyLine
    requires host { IfOk came (TellsHost act.now) }
    requires free { IsFree N.opening pass.old.view }
    ensures free { IsFree N.opening pass.new.view }
    ensures answer { (before : Passing) (report : Report) → IsReport act.now running.now report
        → HearsBeside before (heard_entry report moment) came pass.old → AnswersReportBeside before report moment (shown result) pass.new }
    ensures grows { IsPrefix pass.old.view.journal pass.new.view.journal }
{
    match came {
        Ok(told) => {
            let (host, heard) = heard_by(told, act);
            reply_behind(rt, alloc, bot, pass, gate, host, heard, running, moment)
        }
        Err(why) => other_line(alloc, unrecorded_reply(why)),
    }
}

// Walks the round that follows a report, without the lock, and replies to the report.
fn reply_behind<K: Keeper, N: Opened, G: Gate, R: Wait>(
    rt: &R,
    alloc: Global,
    bot: &Bot<K, N>,
    pass: &mut Pass<N>,
    gate: &mut G,
    host: HostNo,
    heard: &HeardAct,
    running: &[Attempt],
    moment: u64,
) -> ReplyLine
    requires free { IsFree N.opening pass.old.view }
    ensures free { IsFree N.opening pass.new.view }
    ensures replied { IsRepliedBehind pass.old host (told heard.now running.now) moment (shown result) pass.new }
    ensures grows { IsPrefix pass.old.view.journal pass.new.view.journal }
{
    let round = book_round(rt, alloc, bot, pass, host, moment, gate);
    reply_locked(rt, alloc, bot, pass, host, heard, running, round.cut)
}
