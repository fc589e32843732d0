//! The top call of the program `cuebot`.

ghost use Rattle.std.specs.Prelude.{◌≡◌, ◌↔◌, ℕ, List, None, Some};
ghost use Rattle.farm_load.specs.booking_recorder.specs.Going.{Journals};
ghost use Rattle.booking_table.specs.Seats.{IsSeatOf, view};
ghost use Rattle.fault_counts.specs.Counts.{HasRisen};
ghost use Rattle.cue_io.specs.Output.{Adds};
ghost use Rattle.cue_io.specs.Reader.{new_reader};
ghost use Rattle.farm_lines.specs.Reply.{bad_store_line};
ghost use Rattle.farm_lines.specs.declared.limits.TheConstants.{LINE_LIMIT};
ghost use Rattle.session.specs.Opening.{BeginsBad, BeginsWith, HoldsFarm, IsUnmigrated, IsUntouched, MayOpen};
ghost use Rattle.farm_load.specs.recording_turns.specs.Resting.{IsAtRest, IsUnplaced, split_in};
ghost use Rattle.session.specs.Seats.{HasRoom};
ghost use Rattle.session.specs.Sessions.{AnswersAll, AnswersForm, Call, GoesOnOpened, IsCall, MayTell, RecordsOver, TellsBad, TellsFault, TellsLine};
ghost use Rattle.line_exchanges.specs.Calls.{streams};
ghost use Rattle.session.specs.Sessions.{status_of};
ghost use Rattle.session.specs.Words.{IsWithin, WordForm, form_of, word_form};

use crate::load::answer_load;
use crate::opening::{OpenFault, Opening, open};
use crate::serve::serve;
use crate::word_forms::form;
use crate::words::Form;
use booking_table::{Seat, Table};
use command_line::Status;
use cue_io::{Clock, LineReader, Sink, Source, write_all};
use farm_keeper::Keeper;
use farm_law::legal_runs_are_safe;
use farm_lines::LINE_LIMIT;
use farm_load::booking_recorder::{Naming, Recorder};
use farm_load::line_answers::sessions_are_legal;
use farm_types::Text;
use json::Scratch;
use line_exchanges::Exchanged;
use recovery::RecoverFault;
use report_codec::write_bad_store;
use std::alloc::Global;
use std::marker::Brand;

/// Runs `cuebot` for the words after its name over a keeper of rows, and gives the keeper back: opens the farm of the rows at the clock's first reading,
/// on a new table of words, and answers the source's lines in the sink, each at the clock's next reading, until the source ends or an I/O error comes. A
/// load takes nothing of the source: it is run over its farm, and its summary is written. No commit of the keeper was refused since the last one that it
/// took, and for `demo` and `load` it holds no rows. Where its rows are no farm, a line in the sink tells the first one at fault. Where a farm was opened,
/// the recorder's seat is given back too, whose journal has what was recorded.
///
/// The status is Done at the end of the input, or where a load's job finished and its summary was written; WrongWords for invalid arguments, StoreFailed
/// where the store failed before the first line, ReadFailed and WriteFailed for a failed read or write, BadStore where the store's rows are no farm,
/// NoMemory where memory ran out before the first line, or in a load, and Spent where the bytes that one session takes are spent, or a load's job isn't
/// finished after 20,000 rounds.
pub fn run_cuebot<S: Source, W: Sink, K: Keeper, C: Clock>(
    alloc: Global,
    words: &[Text],
    source: &mut S,
    sink: &mut W,
    keeper: K,
    clock: &mut C,
) -> (Status, K, Option<Seat>)
    requires { (form : WordForm) → form_of words.now ≡ Some form → K.tells keeper → MayOpen form (K.holds keeper) (K.left keeper) }

    // WrongWords comes exactly where the words are invalid, and then nothing is read, written or loaded.
    ensures usage { (result.0 ≡ Status.WrongWords) ↔ (form_of words.now ≡ None) }
    ensures nothing { form_of words.now ≡ None → (source.new ≡ source.old) × (sink.new ≡ sink.old) × (clock.new ≡ clock.old) × (result.1 ≡ keeper) }

    // What was taken, written and read of the clock, and the exchanges: the bytes written are the replies to the lines taken, the entries
    // recorded are a legal and safe run from the opened farm, the keeper holds the farm that they make and failed exactly at the lines that tell of the
    // store, and nothing but an I/O error, a fault of the store or the limit of bytes ends the call before the input does. Where a farm was opened, and
    // only there, a seat is given back: each word shows what that farm says, and the journal has exactly the opening's entries and then these.
    ensures call { (call : Call) × IsCall words.now result.0
        (streams (S.left source.old) (S.faults source.old) (W.written sink.old) (W.faults sink.old) (C.readings clock.old) (K.faults keeper))
        (streams (S.left source.new) (S.faults source.new) (W.written sink.new) (W.faults sink.new) (C.readings clock.new) (K.faults result.1)) call result.2
        (λ form. BeginsWith form (K.tells result.1) (K.holds keeper)) (λ form. BeginsBad form (K.tells result.1) (K.holds keeper))
        (result.1 ≡ keeper) (K.tells result.1 → IsUntouched (K.holds keeper) (K.left keeper) (K.holds result.1) (K.left result.1))
        (λ f. K.tells result.1 → IsUnmigrated (K.holds keeper) (K.holds result.1) (K.left result.1) f)
        (GoesOnOpened K.commits K.tells K.holds K.left K.faults keeper result.1) (HoldsFarm (K.tells result.1) (K.holds result.1) (K.left result.1)) }

    // A fault of the store, a failed read or a failed write is told only where the keeper's, the source's or the sink's count of faults rose in this call.
    ensures store { result.0 ≡ Status.StoreFailed → HasRisen (K.faults keeper) (K.faults result.1) }
    ensures read { result.0 ≡ Status.ReadFailed → HasRisen (S.faults source.old) (S.faults source.new) }
    ensures write { result.0 ≡ Status.WriteFailed → HasRisen (W.faults sink.old) (W.faults sink.new) }
{
    let Some(form) = form(words) else {
        return (Status::WrongWords, keeper, None);
    };
    let Ok(mut reader) = LineReader::make(alloc, LINE_LIMIT as usize) else {
        return (Status::NoMemory, keeper, None);
    };
    let Ok((table, seat)) = Table::make(alloc) else {
        return (Status::NoMemory, keeper, None);
    };
    run_form::<S, W, K, C, Brand>(
        alloc,
        form,
        &table,
        seat,
        &mut reader,
        source,
        sink,
        keeper,
        clock,
    )
}

// Opens the farm of the form on a new table, and answers over it.
fn run_form<S: Source, W: Sink, K: Keeper, C: Clock, N: Naming>(
    alloc: Global,
    form: Form<'_>,
    table: &Table,
    seat: Seat,
    reader: &mut LineReader,
    source: &mut S,
    sink: &mut W,
    keeper: K,
    clock: &mut C,
) -> (Status, K, Option<Seat>)
    requires within { IsWithin (word_form form) }
    requires kept { K.tells keeper → MayOpen (word_form form) (K.holds keeper) (K.left keeper) }
    requires table { table.now ≡ N.table }
    requires seat { IsSeatOf table.now seat }
    requires unplaced { IsUnplaced (view seat) }
    requires reader { reader.old ≡ new_reader LINE_LIMIT }
    ensures usage { result.0 ≡ Status.WrongWords → ⊥ }
    ensures call { (words : List (List ℕ)) → form_of words ≡ Some (word_form form.entry) → (call : Call) × IsCall words result.0
        (streams (S.left source.old) (S.faults source.old) (W.written sink.old) (W.faults sink.old) (C.readings clock.old) (K.faults keeper))
        (streams (S.left source.new) (S.faults source.new) (W.written sink.new) (W.faults sink.new) (C.readings clock.new) (K.faults result.1)) call result.2
        (λ form. BeginsWith form (K.tells result.1) (K.holds keeper)) (λ form. BeginsBad form (K.tells result.1) (K.holds keeper))
        (result.1 ≡ keeper) (K.tells result.1 → IsUntouched (K.holds keeper) (K.left keeper) (K.holds result.1) (K.left result.1))
        (λ f. K.tells result.1 → IsUnmigrated (K.holds keeper) (K.holds result.1) (K.left result.1) f)
        (GoesOnOpened K.commits K.tells K.holds K.left K.faults keeper result.1) (HoldsFarm (K.tells result.1) (K.holds result.1) (K.left result.1)) }
    ensures store { result.0 ≡ Status.StoreFailed → HasRisen (K.faults keeper) (K.faults result.1) }
    ensures read { result.0 ≡ Status.ReadFailed → HasRisen (S.faults source.old) (S.faults source.new) }
    ensures write { result.0 ≡ Status.WriteFailed → HasRisen (W.faults sink.old) (W.faults sink.new) }
{
    let moment = clock.now();
    match open::<K, N>(alloc, form, keeper, table, seat, moment) {
        Opening::Opened { recorder } => {
            let (status, keeper, seat) = answer_opened(
                alloc, form, table, recorder, reader, source, sink, clock,
            );
            (status, keeper, Some(seat))
        }
        Opening::Failed { keeper, fault } => (tell_fault(alloc, sink, fault), keeper, None),
    }
}

// Runs a load over a farm that was opened, or answers the source's lines over it, and gives the keeper and the seat back.
fn answer_opened<S: Source, W: Sink, K: Keeper, C: Clock, N: Naming>(
    alloc: Global,
    form: Form<'_>,
    table: &Table,
    recorder: Recorder<K, N>,
    reader: &mut LineReader,
    source: &mut S,
    sink: &mut W,
    clock: &mut C,
) -> (Status, K, Seat)
    requires within { IsWithin (word_form form) }
    requires reader { reader.old ≡ new_reader LINE_LIMIT }
    requires table { table.now ≡ N.table }
    requires alone { split_in recorder.view.desk ≡ 0 }
    requires room { HasRoom recorder.view }
    ensures answered { (call : Call) × AnswersForm (word_form form.entry) result.0 recorder.farm
        (streams (S.left source.old) (S.faults source.old) (W.written sink.old) (W.faults sink.old) (C.readings clock.old) (K.faults recorder.keeper))
        (streams (S.left source.new) (S.faults source.new) (W.written sink.new) (W.faults sink.new) (C.readings clock.new) (K.faults result.1)) call
        (RecordsOver K.commits K.tells K.holds K.left K.faults recorder result.1 (view result.2))
        (HoldsFarm (K.tells result.1) (K.holds result.1) (K.left result.1)) (Journals recorder.view (view result.2)) }
    ensures rests { IsAtRest (view result.2) }
    ensures told { K.tells result.1 → K.tells recorder.keeper }
    ensures opened { HoldsFarm (K.tells recorder.keeper) (K.holds recorder.keeper) (K.left recorder.keeper) recorder.farm }
    ensures read { result.0 ≡ Status.ReadFailed → HasRisen (S.faults source.old) (S.faults source.new) }
    ensures write { result.0 ≡ Status.WriteFailed → HasRisen (W.faults sink.old) (W.faults sink.new) }
{
    recorder.recorded();
    match form {
        Form::Demo | Form::Script { .. } => {
            answer_all(alloc, table, recorder, reader, source, sink, clock)
        }
        Form::Load { n } => answer_load(alloc, table, recorder, n, sink),
    }
}

// Answers the source's lines over a farm that was opened, and gives the keeper and the seat back.
fn answer_all<S: Source, W: Sink, K: Keeper, C: Clock, N: Naming>(
    alloc: Global,
    table: &Table,
    recorder: Recorder<K, N>,
    reader: &mut LineReader,
    source: &mut S,
    sink: &mut W,
    clock: &mut C,
) -> (Status, K, Seat)
    requires reader { reader.old ≡ new_reader LINE_LIMIT }
    requires table { table.now ≡ N.table }
    requires alone { split_in recorder.view.desk ≡ 0 }
    requires room { HasRoom recorder.view }
    ensures answered { (call : Call) × AnswersAll result.0 recorder.farm
        (streams (S.left source.old) (S.faults source.old) (W.written sink.old) (W.faults sink.old) (C.readings clock.old) (K.faults recorder.keeper))
        (streams (S.left source.new) (S.faults source.new) (W.written sink.new) (W.faults sink.new) (C.readings clock.new) (K.faults result.1)) call
        (RecordsOver K.commits K.tells K.holds K.left K.faults recorder result.1 (view result.2))
        (HoldsFarm (K.tells result.1) (K.holds result.1) (K.left result.1)) }
    ensures rests { IsAtRest (view result.2) }
    ensures told { K.tells result.1 → K.tells recorder.keeper }
    ensures read { result.0 ≡ Status.ReadFailed → HasRisen (S.faults source.old) (S.faults source.new) }
    ensures write { result.0 ≡ Status.WriteFailed → HasRisen (W.faults sink.old) (W.faults sink.new) }
{
    let mut recorder = recorder;
    recorder.read().kept();
    sessions_are_legal();
    legal_runs_are_safe();
    let mut scratch = Scratch::new(alloc);
    let ended = serve(
        alloc,
        table,
        &mut recorder,
        reader,
        &mut scratch,
        source,
        sink,
        clock,
    );
    let (keeper, seat) = recorder.close();
    (status(ended), keeper, seat)
}

// Tells why no farm was opened, with a line where a row is at fault.
fn tell_fault<W: Sink>(alloc: Global, sink: &mut W, fault: OpenFault) -> Status
    ensures told { (wrote : List ℕ) × Adds (W.written sink.old) (W.written sink.new) wrote × TellsFault fault result wrote }
    ensures write { result ≡ Status.WriteFailed → HasRisen (W.faults sink.old) (W.faults sink.new) }
{
    match fault {
        OpenFault::Store => Status::StoreFailed,
        OpenFault::Bad { fault } => tell_bad(alloc, sink, fault),
        OpenFault::NoMemory => Status::NoMemory,
    }
}

// Tells the row at fault.
fn tell_bad<W: Sink>(alloc: Global, sink: &mut W, fault: RecoverFault) -> Status
    ensures told { (wrote : List ℕ) × Adds (W.written sink.old) (W.written sink.new) wrote × MayTell (TellsBad fault result wrote) result wrote }
    ensures write { result ≡ Status.WriteFailed → HasRisen (W.faults sink.old) (W.faults sink.new) }
{
    match fault {
        RecoverFault::BadBytes { kind, id } => tell_row(alloc, sink, kind, id),
        RecoverFault::BreaksFarm { kind, id } => tell_row(alloc, sink, kind, id),
        RecoverFault::NoMemory => Status::NoMemory,
    }
}

// Tells that the row of this kind and id is at fault.
fn tell_row<W: Sink>(alloc: Global, sink: &mut W, kind: u8, id: u64) -> Status
    ensures told { (wrote : List ℕ) × Adds (W.written sink.old) (W.written sink.new) wrote
        × MayTell (TellsLine (bad_store_line kind id) result wrote) result wrote }
    ensures write { result ≡ Status.WriteFailed → HasRisen (W.faults sink.old) (W.faults sink.new) }
{
    let Ok(line) = write_bad_store(alloc, kind, id) else {
        return Status::NoMemory;
    };
    match write_all(sink, line.as_slice()) {
        Ok(()) => Status::BadStore,
        Err(_) => Status::WriteFailed,
    }
}

// The status of a session, by how it ended.
fn status(ended: Exchanged) -> Status
    ensures { result ≡ status_of ended }
{
    match ended {
        Exchanged::Went | Exchanged::End => Status::Done,
        Exchanged::Read => Status::ReadFailed,
        Exchanged::Write => Status::WriteFailed,
        Exchanged::Spent => Status::Spent,
    }
}
