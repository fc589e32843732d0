//! Answering a report, by a recorder alone.

ghost use Rattle.std.specs.Prelude.{◌≡◌, ◌≤◌, ◌<◌, ◌^◌, ◌+◌, IfOk, Some, false, length};
ghost use Rattle.farm_types.specs.declared.entry.Act.TheVariants as acts;
ghost use Rattle.farm_types.specs.declared.limits.TheConstants.{BOOKINGS_EACH};
ghost use Rattle.farm_types.specs.Dispatch.{round_for};
ghost use Rattle.farm_types.specs.Farm.{Farm};
ghost use Rattle.farm_types.specs.Formed.{IsFormed};
ghost use Rattle.farm_lines.specs.Asked.{heard_entry};
ghost use Rattle.farm_lines.specs.declared.report.Report.{Report};
ghost use Rattle.farm_lines.specs.Transcript.{Plain};
ghost use Rattle.dispatcher.specs.recorder.specs.Recording.{ChangesNone};
ghost use Rattle.dispatcher.specs.recording_turns.specs.Resting.{split_in};
ghost use Rattle.dispatcher.specs.booking_recorder.specs.Going.{GoesOn};
ghost use Rattle.dispatcher.specs.booking_recorder.specs.Recording.{Recording};
ghost use Rattle.line_answers.specs.Entering.{WasHeard, is_hindered};
ghost use Rattle.line_answers.specs.LineAnswers.{AnswersReport, Hears, TakesReport, TakesRound, reported, unrecorded_reply};
ghost use Rattle.line_answers.specs.Lines.{IsLineOfOther, shown};
ghost use Rattle.line_answers.specs.Launches.{told};
ghost use Rattle.line_answers.specs.Reports.{IsReport, TellsHost};
ghost use Rattle.line_answers.specs.Told.{IsLineOfTold};
ghost use Rattle.line_answers.specs.declared.limits.TheConstants.{ENTRIES_EACH};

use crate::hearing::hear;
use crate::reply_line::{ReplyLine, line_of};
use crate::reporting::write_report;
use crate::told::{Taken, Told};
use booking_table::Table;
use dispatcher::book_alone;
use dispatcher::booking_recorder::{CommitRefusal, Naming, Recorder};
use farm_keeper::Keeper;
use farm_lines::{Reply, Report};
use farm_types::{Act, Attempt, Entry, HeardAct, HostNo};
use std::alloc::Global;

/// Answers a report: records it and its round, and gives the line of its reply.
pub fn answer_report<K: Keeper, N: Naming>(
    alloc: Global,
    table: &Table,
    recorder: &mut Recorder<K, N>,
    report: Report,
    moment: u64,
) -> ReplyLine
    requires formed { IsFormed (heard_entry report moment) }
    requires table { table.now ≡ N.table }
    requires alone { split_in recorder.old.view.desk ≡ 0 }
    requires room { length recorder.old.view.journal + ENTRIES_EACH < 2 ^ 64 }
    ensures answer { AnswersReport recorder.old.farm report moment recorder.new.farm (shown result)
        (GoesOn K.commits K.tells K.faults recorder.old recorder.new) }
    ensures same { ChangesNone recorder.old.farm (reported recorder.old.farm report moment Plain).entries → recorder.new.keeper ≡ recorder.old.keeper }
{
    let taken = take_report(alloc, table, recorder, report, moment);
    told_line(alloc, taken.told)
}

/// Records a report and its round, and says what is replied to it and how many frames were booked. No seat was split off of the recorder's.
pub fn take_report<K: Keeper, N: Naming>(
    alloc: Global,
    table: &Table,
    recorder: &mut Recorder<K, N>,
    report: Report,
    moment: u64,
) -> Taken
    requires formed { IsFormed (heard_entry report moment) }
    requires table { table.now ≡ N.table }
    requires alone { split_in recorder.old.view.desk ≡ 0 }
    requires room { length recorder.old.view.journal + ENTRIES_EACH < 2 ^ 64 }
    ensures taken { TakesReport recorder.old.farm report moment recorder.new.farm result (GoesOn K.commits K.tells K.faults recorder.old recorder.new) }
    ensures few { result.booked ≤ BOOKINGS_EACH }
    ensures same { ChangesNone recorder.old.farm (reported recorder.old.farm report moment Plain).entries → recorder.new.keeper ≡ recorder.old.keeper }
{
    let entry = Entry {
        moment,
        act: Act::Heard(report.heard),
    };
    let recorded = hear(alloc, table, recorder, &entry);
    take_recorded(
        alloc,
        table,
        recorder,
        recorded,
        &entry.act,
        report.running.as_slice(),
        moment,
    )
}

// The line of what is told of a report, or that memory ran out.
fn told_line(alloc: Global, told: Told) -> ReplyLine
    ensures { IsLineOfTold told (shown result) }
{
    match told {
        Told::Reported(line) => ReplyLine::Written(line.text),
        Told::Other(reply) => other_line(alloc, reply),
    }
}

/// The line of a reply that is to no report that was recorded, or that memory ran out.
pub fn other_line(alloc: Global, reply: Reply) -> ReplyLine
    ensures { IsLineOfOther reply (shown result) }
{
    match reply {
        Reply::Store => ReplyLine::Store,
        Reply::NoMemory => ReplyLine::NoMemory,
        reply => line_of(alloc, &reply),
    }
}

// Walks the round after a report that was recorded, and says what is replied.
fn take_recorded<K: Keeper, N: Naming>(
    alloc: Global,
    table: &Table,
    recorder: &mut Recorder<K, N>,
    recorded: Result<Option<HostNo>, CommitRefusal>,
    act: &Act,
    running: &[Attempt],
    moment: u64,
) -> Taken
    requires host { IfOk recorded (TellsHost act.now) }
    requires unhindered { is_hindered recorded ≡ false }
    requires table { table.now ≡ N.table }
    requires alone { split_in recorder.old.view.desk ≡ 0 }
    requires room { length recorder.old.view.journal + BOOKINGS_EACH < 2 ^ 64 }
    ensures taken { (before : Recording K) (report : Report) → IsReport act.now running.now report
        → WasHeard K.commits K.tells K.faults before (heard_entry report moment) recorded recorder.old
        → TakesReport before.farm report moment recorder.new.farm result (GoesOn K.commits K.tells K.faults before recorder.new) }
    ensures few { result.booked ≤ BOOKINGS_EACH }
    ensures same { (f : Farm) (report : Report) → IsReport act.now running.now report → Hears f (heard_entry report moment) recorded recorder.old.farm
        → ChangesNone f (reported f report moment Plain).entries → recorder.new.keeper ≡ recorder.old.keeper }
{
    match recorded {
        Ok(told) => {
            let (host, heard) = heard_by(told, act);
            take_round(alloc, table, recorder, host, heard, running, moment)
        }
        Err(why) => Taken {
            told: Told::Other(unrecorded_reply(why)),
            booked: 0,
        },
    }
}

/// The host that was heard, and what it told.
pub fn heard_by(told: Option<HostNo>, act: &Act) -> (HostNo, &HeardAct)
    requires { TellsHost act.now told }
    ensures host { told ≡ Some result.0 }
    ensures heard { act.now ≡ acts.Heard result.1.now }
{
    match (told, act) {
        (Some(host), Act::Heard(heard)) => (host, heard),
        _ => unreachable!(),
    }
}

/// What is replied where the report wasn't recorded.
pub fn unrecorded_reply(why: CommitRefusal) -> Reply
    ensures { result ≡ unrecorded_reply why }
{
    match why {
        CommitRefusal::Refused { why } => Reply::Refused(why),
        CommitRefusal::Spent => Reply::EntriesFull,
        CommitRefusal::Held { cores, memory } => Reply::StillHeld { cores, memory },
        CommitRefusal::Store => Reply::Store,
        CommitRefusal::NoMemory => Reply::NoMemory,
    }
}

// Walks the round that follows a report, and says what is replied to the report.
fn take_round<K: Keeper, N: Naming>(
    alloc: Global,
    table: &Table,
    recorder: &mut Recorder<K, N>,
    host: HostNo,
    heard: &HeardAct,
    running: &[Attempt],
    moment: u64,
) -> Taken
    requires table { table.now ≡ N.table }
    requires alone { split_in recorder.old.view.desk ≡ 0 }
    requires room { length recorder.old.view.journal + BOOKINGS_EACH < 2 ^ 64 }
    ensures taken { TakesRound recorder.old.farm host (told heard.now running.now) moment recorder.new.farm result
        (GoesOn K.commits K.tells K.faults recorder.old recorder.new) }
    ensures few { result.booked ≤ BOOKINGS_EACH }
    ensures same { ChangesNone recorder.old.farm (round_for recorder.old.farm host moment) → recorder.new.keeper ≡ recorder.old.keeper }
{
    let walked = book_alone(alloc, table, recorder, host, moment);
    match write_report(alloc, recorder.read(), host, heard, running, walked.cut) {
        Ok(line) => Taken {
            told: Told::Reported(line),
            booked: walked.booked,
        },
        Err(_) => Taken {
            told: Told::Other(Reply::NoMemory),
            booked: walked.booked,
        },
    }
}
