//! A session: exchanges until one ends it.

ghost use Rattle.std.specs.Prelude.{◌≡◌};
ghost use Rattle.farm_load.specs.recording_turns.specs.Resting.{split_in};
ghost use Rattle.session.specs.Seats.{HasRoom};
ghost use Rattle.fault_counts.specs.Counts.{HasRisen};
ghost use Rattle.cue_io.specs.Reader.{new_reader};
ghost use Rattle.line_exchanges.specs.Calls.{HasMoved, streams};
ghost use Rattle.session.specs.Sessions.{Call, EndsSession, RecordsOver};
ghost use Rattle.farm_lines.specs.declared.limits.TheConstants.{LINE_LIMIT};

use crate::exchange::exchange;
use booking_table::Table;
use cue_io::{Clock, LineReader, Sink, Source};
use farm_keeper::Keeper;
use farm_load::booking_recorder::{Naming, Recorder};
use json::Scratch;
use line_exchanges::Exchanged;
use std::alloc::Global;

/// Answers line after line until the input ends or an I/O error comes, and says which.
pub fn serve<S: Source, W: Sink, K: Keeper, C: Clock, N: Naming>(
    alloc: Global,
    table: &Table,
    recorder: &mut Recorder<K, N>,
    reader: &mut LineReader,
    scratch: &mut Scratch,
    source: &mut S,
    sink: &mut W,
    clock: &mut C,
) -> Exchanged
    requires reader { reader.old ≡ new_reader LINE_LIMIT }
    requires table { table.now ≡ N.table }
    requires alone { split_in recorder.old.view.desk ≡ 0 }
    requires room { HasRoom recorder.old.view }
    ensures ends { (call : Call) × HasMoved
        (streams (S.left source.old) (S.faults source.old) (W.written sink.old) (W.faults sink.old) (C.readings clock.old) (K.faults recorder.old.keeper))
        (streams (S.left source.new) (S.faults source.new) (W.written sink.new) (W.faults sink.new) (C.readings clock.new) (K.faults recorder.new.keeper)) call
        × EndsSession result recorder.old.farm recorder.new.farm call (S.left source.new)
        (λ exchanges. RecordsOver K.commits K.tells K.holds K.left K.faults recorder.old recorder.new.keeper recorder.new.view exchanges) }
    ensures read { result ≡ Exchanged.Read → HasRisen (S.faults source.old) (S.faults source.new) }
    ensures write { result ≡ Exchanged.Write → HasRisen (W.faults sink.old) (W.faults sink.new) }
{
    'exchanges: loop {
        match exchange(alloc, table, recorder, reader, scratch, source, sink, clock) {
            Exchanged::Went => {}
            ended => return ended,
        }
    }
}
