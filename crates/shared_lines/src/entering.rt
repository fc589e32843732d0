//! Answering a request of one entry beside others.

ghost use Rattle.std.specs.Prelude.{◌≡◌, IfErr, IfOk};
ghost use mathlib.Core.List.{IsPrefix};
ghost use Rattle.farm_types.specs.Formed.{IsFormed};
ghost use Rattle.line_answers.specs.Asking.{IsNoBooking};
ghost use Rattle.line_answers.specs.Lines.{IsLineOf, shown};
ghost use Rattle.shared_rounds.specs.shared_bot.specs.Passes.{IsFree, IsTaken};
ghost use Rattle.shared_lines.specs.Answered.{IsEnteredAt};
ghost use Rattle.shared_lines.specs.Hindered.{IsHinderedBy, hindered_reply};
ghost use Rattle.shared_lines.specs.Beside.{AnswersEntryBeside};

use booking_table::Table;
use farm_keeper::Keeper;
use farm_lines::Reply;
use farm_types::Entry;
use line_answers::booking_recorder::{Pass, Recorder};
use line_answers::{Hindered, ReplyLine, answer_entry, line_of};
use shared_rounds::shared_bot::{Bot, Locked, Opened, catch_up, notice};
use std::alloc::Global;
use std::sync::Wait;

/// Answers a request of one entry, and lets the entry go.
pub(crate) fn answer_act<K: Keeper, N: Opened, R: Wait>(
    rt: &R,
    alloc: Global,
    bot: &Bot<K, N>,
    pass: &mut Pass<N>,
    entry: Entry,
) -> ReplyLine
    requires formed { IsFormed entry }
    requires unbooked { IsNoBooking entry.act }
    requires free { IsFree N.opening pass.old.view }
    ensures free { IsFree N.opening pass.new.view }
    ensures answer { AnswersEntryBeside pass.old entry (shown result) pass.new }
    ensures grows { IsPrefix pass.old.view.journal pass.new.view.journal }
{
    match enter_locked(rt, alloc, bot, pass, &entry) {
        Ok(line) => line,
        Err(why) => hindered_line(alloc, why),
    }
}

// Takes the lock for the entry.
fn enter_locked<K: Keeper, N: Opened, R: Wait>(
    rt: &R,
    alloc: Global,
    bot: &Bot<K, N>,
    pass: &mut Pass<N>,
    entry: &Entry,
) -> Result<ReplyLine, Hindered>
    requires formed { IsFormed entry.now }
    requires unbooked { IsNoBooking entry.now.act }
    requires free { IsFree N.opening pass.old.view }
    ensures free { IsFree N.opening pass.new.view }
    ensures answer { IfOk result (λ line. IsEnteredAt pass.old entry.now (shown line) pass.new) }
    ensures hindered { IfErr result (λ why. IsHinderedBy pass.old entry.now why pass.new) }
    ensures grows { IsPrefix pass.old.view.journal pass.new.view.journal }
{
    let mut held = bot.hold(rt);
    enter_held(alloc, &bot.table, &mut held, pass, entry)
}

fn enter_held<K: Keeper, N: Opened>(
    alloc: Global,
    table: &Table,
    held: &mut Locked<K, N>,
    pass: &mut Pass<N>,
    entry: &Entry,
) -> Result<ReplyLine, Hindered>
    requires table { table.now ≡ N.table }
    requires formed { IsFormed entry.now }
    requires unbooked { IsNoBooking entry.now.act }
    requires free { IsFree N.opening pass.old.view }
    ensures free { IsFree N.opening pass.new.view }
    ensures answer { IfOk result (λ line. IsEnteredAt pass.old entry.now (shown line) pass.new) }
    ensures hindered { IfErr result (λ why. IsHinderedBy pass.old entry.now why pass.new) }
    ensures grows { IsPrefix pass.old.view.journal pass.new.view.journal }
{
    enter(alloc, table, &mut held.recorder, pass, entry)
}

// Records the entry for the pass, which then has its receipt, or says what hindered it.
fn enter<K: Keeper, N: Opened>(
    alloc: Global,
    table: &Table,
    recorder: &mut Recorder<K, N>,
    pass: &mut Pass<N>,
    entry: &Entry,
) -> Result<ReplyLine, Hindered>
    requires table { table.now ≡ N.table }
    requires taken { IsTaken recorder.old }
    requires opening { recorder.old.view.opening ≡ N.opening }
    requires formed { IsFormed entry.now }
    requires unbooked { IsNoBooking entry.now.act }
    requires free { IsFree N.opening pass.old.view }
    ensures taken { IsTaken recorder.new }
    ensures opening { recorder.new.view.opening ≡ N.opening }
    ensures free { IsFree N.opening pass.new.view }
    ensures answer { IfOk result (λ line. IsEnteredAt pass.old entry.now (shown line) pass.new) }
    ensures hindered { IfErr result (λ why. IsHinderedBy pass.old entry.now why pass.new) }
    ensures grows { IsPrefix pass.old.view.journal pass.new.view.journal }
{
    notice(table, recorder, pass);
    let came = answer_entry(alloc, table, recorder, entry);
    catch_up(table, recorder, pass);
    came
}

// The line of what hindered an entry, or that memory ran out.
fn hindered_line(alloc: Global, why: Hindered) -> ReplyLine
    ensures { IsLineOf (hindered_reply why) (shown result) }
{
    line_of(alloc, &hindered_reply(why))
}

// What is replied to an entry that was hindered.
fn hindered_reply(why: Hindered) -> Reply
    ensures { result ≡ hindered_reply why }
{
    match why {
        Hindered::Held { cores, memory } => Reply::StillHeld { cores, memory },
        Hindered::Spent => Reply::EntriesFull,
    }
}
