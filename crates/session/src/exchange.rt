//! One exchange: a line is read, answered, and its reply written.

ghost use Rattle.std.specs.Prelude.{◌≡◌, ◌≤◌, ◌<◌, ◌+◌, ◌^◌, ℕ, List, length};
ghost use Rattle.fault_counts.specs.Counts.{HasRisen};
ghost use Rattle.cue_io.specs.Input.{Takes};
ghost use Rattle.cue_io.specs.Output.{Adds};
ghost use Rattle.cue_io.specs.Reader.{IsPending};
ghost use Rattle.cue_io.specs.Readings.{Tells};
ghost use Rattle.session.specs.Sessions.{IsStep, WentOn};
ghost use Rattle.farm_load.specs.line_answers.specs.declared.limits.TheConstants.{ENTRIES_EACH};
ghost use Rattle.farm_load.specs.recording_turns.specs.Resting.{split_in};
ghost use Rattle.farm_lines.specs.declared.limits.TheConstants.{LINE_LIMIT};

use booking_table::Table;
use cue_io::{Clock, Line, LineFault, LineReader, Sink, Source};
use farm_keeper::Keeper;
use farm_load::booking_recorder::{Naming, Recorder};
use farm_load::line_answers::{ReplyLine, answer_line, lines_are_answered_by_what_they_ask};
use json::Scratch;
use line_exchanges::{Exchanged, send};
use std::alloc::Global;

/// Reads one line, answers it, and writes its reply. No seat was split off of the recorder's.
pub fn exchange<S: Source, W: Sink, K: Keeper, C: Clock, N: Naming>(
    alloc: Global,
    table: &Table,
    recorder: &mut Recorder<K, N>,
    reader: &mut LineReader,
    scratch: &mut Scratch,
    source: &mut S,
    sink: &mut W,
    clock: &mut C,
) -> Exchanged
    requires limit { reader.old.limit ≡ LINE_LIMIT }
    requires pending { (pending : List ℕ) × IsPending reader.old pending }
    requires table { table.now ≡ N.table }
    requires alone { split_in recorder.old.view.desk ≡ 0 }
    requires room { length recorder.old.view.journal + ENTRIES_EACH < 2 ^ 64 }
    ensures step { (took wrote seen : List ℕ) × Takes (S.left source.old) (S.left source.new) took × Adds (W.written sink.old) (W.written sink.new) wrote
        × Tells (C.readings clock.old) (C.readings clock.new) seen
        × IsStep result reader.old reader.new (S.left source.new) recorder.old.farm recorder.new.farm took wrote seen
        (WentOn K.commits K.tells K.holds K.left K.faults recorder.old recorder.new)
        (recorder.new.keeper ≡ recorder.old.keeper) (recorder.new ≡ recorder.old) }
    ensures read { result ≡ Exchanged.Read → HasRisen (S.faults source.old) (S.faults source.new) }
    ensures write { result ≡ Exchanged.Write → HasRisen (W.faults sink.old) (W.faults sink.new) }
    ensures source { S.faults source.old ≤ S.faults source.new }
    ensures sink { W.faults sink.old ≤ W.faults sink.new }
{
    match reader.next(source) {
        Ok(Line::Bytes(line)) => {
            let moment = clock.now();
            let reply = answer_line(alloc, table, recorder, line, scratch, moment);
            recorder.recorded();
            send(sink, reply.bytes())
        }
        Ok(Line::TooLong) => {
            let _moment = clock.now();
            lines_are_answered_by_what_they_ask();
            recorder.recorded();
            send(sink, ReplyLine::TooLong.bytes())
        }
        Ok(Line::End) => Exchanged::End,
        Err(LineFault::Read) => Exchanged::Read,
        Err(LineFault::Spent) => Exchanged::Spent,
    }
}
