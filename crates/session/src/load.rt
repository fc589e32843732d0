//! The run of a load over a farm that was opened.

ghost use Rattle.std.specs.Prelude.{◌≡◌, ℕ, List};
ghost use Rattle.farm_load.specs.booking_recorder.specs.Going.{Journals};
ghost use Rattle.booking_table.specs.Seats.{view};
ghost use Rattle.fault_counts.specs.Counts.{HasRisen};
ghost use Rattle.cue_io.specs.Output.{Adds};
ghost use Rattle.farm_gen.specs.Load.{IsLoad};
ghost use Rattle.farm_load.specs.Summaries.{summary_text};
ghost use Rattle.farm_load.specs.recording_turns.specs.Resting.{IsAtRest, split_in};
ghost use Rattle.session.specs.Loads.{AnswersLoad, TellsEnd, TellsSummary};
ghost use Rattle.session.specs.Opening.{HoldsFarm};
ghost use Rattle.session.specs.Seats.{HasRoom};

use booking_table::{Seat, Table};
use command_line::Status;
use cue_io::{Sink, write_all};
use farm_keeper::Keeper;
use farm_law::legal_runs_are_safe;
use farm_load::booking_recorder::{Naming, Recorder};
use farm_load::{LoadEnd, Summary, loads_are_legal, run_load, write_summary};
use std::alloc::Global;

/// Runs the load over its farm, tells its summary where the job finished, and gives the keeper and the seat back.
pub(crate) fn answer_load<W: Sink, K: Keeper, N: Naming>(
    alloc: Global,
    table: &Table,
    recorder: Recorder<K, N>,
    n: u32,
    sink: &mut W,
) -> (Status, K, Seat)
    requires load { IsLoad n }
    requires table { table.now ≡ N.table }
    requires alone { split_in recorder.view.desk ≡ 0 }
    requires room { HasRoom recorder.view }
    ensures answered { (wrote : List ℕ) × Adds (W.written sink.old) (W.written sink.new) wrote × AnswersLoad n recorder.farm result.0 wrote
        (K.faults recorder.keeper) (K.faults result.1) (HoldsFarm (K.tells result.1) (K.holds result.1) (K.left result.1))
        (Journals recorder.view (view result.2)) }
    ensures rests { IsAtRest (view result.2) }
    ensures told { K.tells result.1 → K.tells recorder.keeper }
    ensures write { result.0 ≡ Status.WriteFailed → HasRisen (W.faults sink.old) (W.faults sink.new) }
{
    let mut recorder = recorder;
    recorder.read().kept();
    loads_are_legal();
    legal_runs_are_safe();
    let ended = run_load(alloc, table, &mut recorder, n);
    let (keeper, seat) = recorder.close();
    (tell_end(alloc, sink, ended), keeper, seat)
}

// Tells the summary where the job finished.
fn tell_end<W: Sink>(alloc: Global, sink: &mut W, ended: LoadEnd) -> Status
    ensures told { (wrote : List ℕ) × Adds (W.written sink.old) (W.written sink.new) wrote × TellsEnd ended result wrote }
    ensures write { result ≡ Status.WriteFailed → HasRisen (W.faults sink.old) (W.faults sink.new) }
{
    match ended {
        LoadEnd::Finished { summary } => tell_summary(alloc, sink, &summary),
        LoadEnd::Spent => Status::Spent,
        LoadEnd::NoMemory => Status::NoMemory,
    }
}

// Tells a summary.
fn tell_summary<W: Sink>(alloc: Global, sink: &mut W, summary: &Summary) -> Status
    ensures told { (wrote : List ℕ) × Adds (W.written sink.old) (W.written sink.new) wrote × TellsSummary (summary_text summary.now) result wrote }
    ensures write { result ≡ Status.WriteFailed → HasRisen (W.faults sink.old) (W.faults sink.new) }
{
    let Ok(text) = write_summary(alloc, summary) else {
        return Status::NoMemory;
    };
    match write_all(sink, text.as_str().as_bytes()) {
        Ok(()) => Status::Done,
        Err(_) => Status::WriteFailed,
    }
}
