//! Answering one line beside others.

ghost use Rattle.std.specs.Prelude.{◌≤◌, length};
ghost use mathlib.Core.List.{IsPrefix};
ghost use Rattle.farm_lines.specs.Asked.{IsFormedAsked};
ghost use Rattle.farm_lines.specs.declared.limits.TheConstants.{LINE_LIMIT};
ghost use Rattle.line_answers.specs.Asking.{IsUnbooked};
ghost use Rattle.line_answers.specs.Lines.{shown};
ghost use Rattle.shared_rounds.specs.shared_bot.specs.Passes.{IsFree};
ghost use Rattle.shared_lines.specs.Beside.{AnswersAskedBeside, AnswersBeside};

use crate::entering::answer_act;
use crate::listing::answer_query;
use crate::reporting::answer_report;
use farm_keeper::Keeper;
use farm_lines::Asked;
use farm_types::Entry;
use json::Scratch;
use line_answers::booking_recorder::Pass;
use line_answers::{ReplyLine, ask};
use shared_rounds::Gate;
use shared_rounds::shared_bot::{Bot, Opened};
use std::alloc::Global;
use std::sync::Wait;

/// Answers a line at a moment (seconds) beside others: records what it asks, in the one history of all of them, and gives the line of its reply. The lock is
/// taken for an entry, for a list, for each booking of a round, and for a report's reply, and held for no longer. Texts with escapes are read into the
/// scratch, which is kept from line to line.
pub fn answer_beside<K: Keeper, N: Opened, G: Gate, R: Wait>(
    rt: &R,
    alloc: Global,
    bot: &Bot<K, N>,
    pass: &mut Pass<N>,
    gate: &mut G,
    line: &[u8],
    scratch: &mut Scratch,
    moment: u64,
) -> ReplyLine
    requires limit { length line.now ≤ LINE_LIMIT }
    requires free { IsFree N.opening pass.old.view }
    ensures free { IsFree N.opening pass.new.view }
    ensures answer { AnswersBeside pass.old line.now moment (shown result) pass.new }
    ensures grows { IsPrefix pass.old.view.journal pass.new.view.journal }
{
    match ask(alloc, line, scratch) {
        Ok(asked) => answer_asked(rt, alloc, bot, pass, gate, asked, moment),
        Err(told) => told,
    }
}

// Answers what is asked.
fn answer_asked<K: Keeper, N: Opened, G: Gate, R: Wait>(
    rt: &R,
    alloc: Global,
    bot: &Bot<K, N>,
    pass: &mut Pass<N>,
    gate: &mut G,
    asked: Asked,
    moment: u64,
) -> ReplyLine
    requires formed { IsFormedAsked asked }
    requires unbooked { IsUnbooked asked }
    requires free { IsFree N.opening pass.old.view }
    ensures free { IsFree N.opening pass.new.view }
    ensures answer { AnswersAskedBeside pass.old asked moment (shown result) pass.new }
    ensures grows { IsPrefix pass.old.view.journal pass.new.view.journal }
{
    match asked {
        Asked::Report(report) => answer_report(rt, alloc, bot, pass, gate, report, moment),
        Asked::Act(act) => answer_act(rt, alloc, bot, pass, Entry { moment, act }),
        Asked::List(query) => answer_query(rt, alloc, bot, pass, query),
    }
}
