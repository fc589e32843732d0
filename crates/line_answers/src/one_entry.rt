//! Answering a request of one entry.

ghost use Rattle.std.specs.Prelude.{◌≡◌, ◌++◌, ◌∷◌, [], IfErr, IfOk, false};
ghost use Rattle.fault_counts.specs.Counts.{incremented_if};
ghost use Rattle.dispatcher.specs.farm_core.specs.Change.{Makes, after_change};
ghost use Rattle.farm_lines.specs.Reply.{job_named, ok_reply, reply_text};
ghost use Rattle.farm_types.specs.Formed.{IsFormed};
ghost use Rattle.farm_types.specs.Step.{after};
ghost use Rattle.dispatcher.specs.recorder.specs.Recording.{HasSameRows, IsOfEntry, IsUnstored};
ghost use Rattle.line_answers.specs.Asking.{IsNoBooking};
ghost use Rattle.line_answers.specs.Entering.{AnswersOn, EntersAnswer, IsHindered, is_store_answer, unrecorded};
ghost use Rattle.line_answers.specs.LineAnswers.{AnswersEntry, IsRecorded, IsUnprepared};
ghost use Rattle.line_answers.specs.Lines.{is_store_line, recorded_by, shown};

use crate::hindered::Hindered;
use crate::reply_line::{ReplyLine, refusal_line, write_line};
use booking_table::Table;
use dispatcher::booking_recorder::{Naming, RecordFault, Recorder};
use dispatcher::farm_core::Change;
use farm_keeper::Keeper;
use farm_lines::Reply;
use farm_types::{Act, Answer, Entry, FarmFault, Items, Text};
use std::alloc::{AllocError, Global};

/// Answers a request of one entry: records the entry, and gives the line of its reply, or what hindered it. The line is written first, so that the farm
/// stays as it was where memory runs out or the store fails.
pub fn answer_entry<K: Keeper, N: Naming>(
    alloc: Global,
    table: &Table,
    recorder: &mut Recorder<K, N>,
    entry: &Entry,
) -> Result<ReplyLine, Hindered>
    requires table { table.now ≡ N.table }
    requires formed { IsFormed entry.now }
    requires unbooked { IsNoBooking entry.now.act }
    ensures answer { IfOk result (λ line. AnswersEntry recorder.old.farm entry.now recorder.new.farm (shown line)
        (AnswersOn K.commits K.tells K.faults recorder.old recorder.new line)) }
    ensures hindered { IfErr result (λ why. IsHindered recorder.old entry.now why recorder.new) }
    ensures journal { EntersAnswer recorder.old.view entry.now result recorder.new.view }
    ensures same { IsUnstored recorder.old.farm entry.now → recorder.new.keeper ≡ recorder.old.keeper }
    ensures faults { recorder.new.faults ≡ incremented_if (is_store_answer result) recorder.old.faults }
{
    match recorder.prepare(alloc, entry) {
        Ok(change) => answer_change(alloc, table, recorder, entry, change),
        Err(fault) => Ok(fault_line(alloc, fault)),
    }
}

// Writes the reply's line, and then records the change that the entry makes.
fn answer_change<K: Keeper, N: Naming>(
    alloc: Global,
    table: &Table,
    recorder: &mut Recorder<K, N>,
    entry: &Entry,
    change: Change,
) -> Result<ReplyLine, Hindered>
    requires table { table.now ≡ N.table }
    requires formed { IsFormed entry.now }
    requires unbooked { IsNoBooking entry.now.act }
    requires makes { Makes recorder.old.farm entry.now change }
    ensures answer { IfOk result (λ line. AnswersEntry recorder.old.farm entry.now recorder.new.farm (shown line)
        (AnswersOn K.commits K.tells K.faults recorder.old recorder.new line)) }
    ensures hindered { IfErr result (λ why. IsHindered recorder.old entry.now why recorder.new) }
    ensures journal { EntersAnswer recorder.old.view entry.now result recorder.new.view }
    ensures same { HasSameRows recorder.old.farm (after recorder.old.farm entry.now) → recorder.new.keeper ≡ recorder.old.keeper }
    ensures faults { recorder.new.faults ≡ incremented_if (is_store_answer result) recorder.old.faults }
{
    match write_ok(alloc, &entry.act, change.answer()) {
        Ok(line) => record(alloc, table, recorder, entry, change, line),
        Err(_) => Ok(without_memory(change)),
    }
}

// Records the entry's change, and gives the line that was written for it.
fn record<K: Keeper, N: Naming>(
    alloc: Global,
    table: &Table,
    recorder: &mut Recorder<K, N>,
    entry: &Entry,
    change: Change,
    line: Items<u8>,
) -> Result<ReplyLine, Hindered>
    requires table { table.now ≡ N.table }
    requires of_entry { IsOfEntry recorder.old.farm entry.now change }
    requires unbooked { IsNoBooking entry.now.act }
    ensures recorded { IfOk result (λ told. IsRecorded recorder.old.farm (after_change recorder.old.farm change) line recorder.new.farm told) }
    ensures went { IfOk result (λ told. AnswersOn K.commits K.tells K.faults recorder.old recorder.new told (entry.now ∷ []) (recorded_by entry.now told)
        (is_store_line told)) }
    ensures hindered { IfErr result (λ why. IsHindered recorder.old entry.now why recorder.new) }
    ensures journal { EntersAnswer recorder.old.view entry.now result recorder.new.view }
    ensures same { HasSameRows recorder.old.farm (after recorder.old.farm entry.now) → recorder.new.keeper ≡ recorder.old.keeper }
    ensures faults { recorder.new.faults ≡ incremented_if (is_store_answer result) recorder.old.faults }
{
    match recorder.record(alloc, table, entry, change) {
        Ok(()) => Ok(ReplyLine::Written(line)),
        Err(fault) => unrecorded(fault),
    }
}

// What comes of an entry that wasn't recorded.
fn unrecorded(fault: RecordFault) -> Result<ReplyLine, Hindered>
    ensures { result ≡ unrecorded fault }
{
    match fault {
        RecordFault::Store => Ok(ReplyLine::Store),
        RecordFault::NoMemory => Ok(ReplyLine::NoMemory),
        RecordFault::Held { cores, memory } => Err(Hindered::Held { cores, memory }),
        RecordFault::Spent => Err(Hindered::Spent),
    }
}

// Lets a change go for which memory ran out.
fn without_memory(_change: Change) -> ReplyLine
    ensures { result ≡ ReplyLine.NoMemory }
{
    ReplyLine::NoMemory
}

// The line of the reply where no change was prepared.
fn fault_line(alloc: Global, fault: FarmFault) -> ReplyLine
    ensures line { IsUnprepared fault (shown result) }
    ensures never_store { is_store_line result ≡ false }
{
    match fault {
        FarmFault::Refused { why } => refusal_line(alloc, why),
        FarmFault::NoMemory => ReplyLine::NoMemory,
    }
}

// The line of the reply to a request but a report, by what the farm answers to its entry.
fn write_ok(alloc: Global, act: &Act, answer: Answer) -> Result<Items<u8>, AllocError>
    ensures { IfOk result (λ line. line ≡ reply_text (ok_reply act.now answer) ++ 10 ∷ []) }
{
    let reply = ok_reply(alloc, act, answer)?;
    write_line(alloc, &reply)
}

// The reply to a request but a report, by what the farm answers to its entry.
fn ok_reply(alloc: Global, act: &Act, answer: Answer) -> Result<Reply, AllocError>
    ensures { IfOk result (λ reply. reply ≡ ok_reply act.now answer) }
{
    match answer {
        Answer::Sub {
            booked,
            burst,
            size,
        } => Ok(Reply::Sub {
            booked,
            burst,
            size,
        }),
        Answer::Limit { most, running } => Ok(Reply::Limit { most, running }),
        Answer::Boot { boot, nonce } => Ok(Reply::Boot { boot, nonce }),
        Answer::Submitted { frames } => Ok(Reply::Submitted {
            frames,
            job: job_named(alloc, act)?,
        }),
        Answer::DependAdded { depend, unmet } => Ok(Reply::Depend { depend, unmet }),
        Answer::DependDropped { opened } => Ok(Reply::Dropped { opened }),
        Answer::Ended { ended } => Ok(Reply::Ended { ended }),
        Answer::Tick { down, lost } => Ok(Reply::Tick { down, lost }),
        _ => Ok(Reply::Done),
    }
}

// The name of the job that is submitted, and none for another act.
fn job_named(alloc: Global, act: &Act) -> Result<Text, AllocError>
    ensures { IfOk result (λ name. name ≡ job_named act.now) }
{
    match act {
        Act::Submit(spec) => spec.name.copy(alloc),
        _ => Ok(Text::from_string(String::new(alloc))),
    }
}
