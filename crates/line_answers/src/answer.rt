//! Answering one line, by a recorder alone.

ghost use Rattle.std.specs.Prelude.{◌≡◌, ◌≤◌, ◌<◌, ◌^◌, ◌+◌, IfErr, Ok, length};
ghost use Rattle.farm_lines.specs.Asked.{IsFormedAsked};
ghost use Rattle.farm_lines.specs.Transcript.{Plain, answer_to, asked_answer};
ghost use Rattle.farm_lines.specs.declared.limits.TheConstants.{LINE_LIMIT};
ghost use Rattle.farm_types.specs.Formed.{IsFormed};
ghost use Rattle.dispatcher.specs.recorder.specs.Recording.{ChangesNone, IsUnstored};
ghost use Rattle.dispatcher.specs.recording_turns.specs.Resting.{split_in};
ghost use Rattle.dispatcher.specs.booking_recorder.specs.Going.{GoesOn};
ghost use Rattle.line_answers.specs.Asking.{IsNoBooking, IsUnbooked};
ghost use Rattle.line_answers.specs.LineAnswers.{AnswersAsked, AnswersEntry, AnswersLine};
ghost use Rattle.line_answers.specs.Lines.{shown};
ghost use Rattle.line_answers.specs.declared.limits.TheConstants.{ENTRIES_EACH};

use crate::answer_report::answer_report;
use crate::asking::ask;
use crate::hindered::Hindered;
use crate::listing::answer_list;
use crate::one_entry::answer_entry;
use crate::reply_line::ReplyLine;
use booking_table::Table;
use dispatcher::booking_recorder::{Naming, Recorder};
use farm_keeper::Keeper;
use farm_lines::Asked;
use farm_types::Entry;
use json::Scratch;
use std::alloc::Global;

/// Answers a line at a moment (seconds): records what it asks, in the farm, in its keeper and on the words, and gives the line of its reply. No seat was
/// split off of the recorder's. A line that changes no row isn't told to the keeper. Texts with escapes are read into the scratch, which is kept from line
/// to line.
pub fn answer_line<K: Keeper, N: Naming>(
    alloc: Global,
    table: &Table,
    recorder: &mut Recorder<K, N>,
    line: &[u8],
    scratch: &mut Scratch,
    moment: u64,
) -> ReplyLine
    requires limit { length line.now ≤ LINE_LIMIT }
    requires table { table.now ≡ N.table }
    requires alone { split_in recorder.old.view.desk ≡ 0 }
    requires room { length recorder.old.view.journal + ENTRIES_EACH < 2 ^ 64 }
    ensures answer { AnswersLine recorder.old.farm line.now moment recorder.new.farm (shown result)
        (GoesOn K.commits K.tells K.faults recorder.old recorder.new) }
    ensures same { ChangesNone recorder.old.farm (answer_to recorder.old.farm line.now moment Plain).entries → recorder.new.keeper ≡ recorder.old.keeper }
{
    match ask(alloc, line, scratch) {
        Ok(asked) => answer_asked(alloc, table, recorder, asked, moment),
        Err(told) => told,
    }
}

// Answers what is asked.
fn answer_asked<K: Keeper, N: Naming>(
    alloc: Global,
    table: &Table,
    recorder: &mut Recorder<K, N>,
    asked: Asked,
    moment: u64,
) -> ReplyLine
    requires formed { IsFormedAsked asked }
    requires unbooked { IsUnbooked asked }
    requires table { table.now ≡ N.table }
    requires alone { split_in recorder.old.view.desk ≡ 0 }
    requires room { length recorder.old.view.journal + ENTRIES_EACH < 2 ^ 64 }
    ensures answer { AnswersAsked recorder.old.farm asked moment recorder.new.farm (shown result)
        (GoesOn K.commits K.tells K.faults recorder.old recorder.new) }
    ensures same { ChangesNone recorder.old.farm (asked_answer recorder.old.farm moment Plain asked).entries → recorder.new.keeper ≡ recorder.old.keeper }
{
    match asked {
        Asked::Report(report) => answer_report(alloc, table, recorder, report, moment),
        Asked::Act(act) => answer_act(alloc, table, recorder, Entry { moment, act }),
        Asked::List(query) => answer_list(alloc, recorder.read(), query),
    }
}

// Answers a request of one entry, and lets the entry go.
fn answer_act<K: Keeper, N: Naming>(
    alloc: Global,
    table: &Table,
    recorder: &mut Recorder<K, N>,
    entry: Entry,
) -> ReplyLine
    requires formed { IsFormed entry }
    requires unbooked { IsNoBooking entry.act }
    requires table { table.now ≡ N.table }
    requires alone { split_in recorder.old.view.desk ≡ 0 }
    requires room { length recorder.old.view.journal + ENTRIES_EACH < 2 ^ 64 }
    ensures answer { AnswersEntry recorder.old.farm entry recorder.new.farm (shown result) (GoesOn K.commits K.tells K.faults recorder.old recorder.new) }
    ensures same { IsUnstored recorder.old.farm entry → recorder.new.keeper ≡ recorder.old.keeper }
{
    answer_alone(alloc, table, recorder, &entry)
}

// Answers a request of one entry, which nothing hinders by a recorder alone that has room.
fn answer_alone<K: Keeper, N: Naming>(
    alloc: Global,
    table: &Table,
    recorder: &mut Recorder<K, N>,
    entry: &Entry,
) -> ReplyLine
    requires formed { IsFormed entry.now }
    requires unbooked { IsNoBooking entry.now.act }
    requires table { table.now ≡ N.table }
    requires alone { split_in recorder.old.view.desk ≡ 0 }
    requires room { length recorder.old.view.journal + ENTRIES_EACH < 2 ^ 64 }
    ensures answer { AnswersEntry recorder.old.farm entry.now recorder.new.farm (shown result) (GoesOn K.commits K.tells K.faults recorder.old recorder.new) }
    ensures same { IsUnstored recorder.old.farm entry.now → recorder.new.keeper ≡ recorder.old.keeper }
{
    let came = answer_entry(alloc, table, recorder, entry);
    unhindered(came)
}

// The line of an entry that nothing hindered.
fn unhindered(came: Result<ReplyLine, Hindered>) -> ReplyLine
    requires { IfErr came (λ why. ⊥) }
    ensures { came ≡ Ok result }
{
    match came {
        Ok(line) => line,
        Err(_) => unreachable!(),
    }
}
