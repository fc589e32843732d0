//! The workers, as they are before the first connection.

ghost use Rattle.std.specs.Prelude.{◌≡◌, ◌≤◌, ◌<◌, false, IfOk, vec_len};
ghost use Rattle.shared_sessions.specs.booking_recorder.specs.Recording.{most_seats};
ghost use Rattle.shared_sessions.specs.shared_bot.specs.Passes.{IsFree, IsTaken};
ghost use Rattle.shared_sessions.specs.shared_bot.specs.recording_turns.specs.Resting.{split_in};
ghost use Rattle.serving.specs.Serving.{IsSplit};

use crate::worker::Worker;
use booking_table::Table;
use cue_io::Clock;
use farm_keeper::Keeper;
use shared_sessions::booking_recorder::{Pass, Recorder};
use shared_sessions::shared_bot::{Opened, open_pass};
use shared_sessions::shared_rounds::Gate;
use std::alloc::{AllocError, Global};

/// A worker a gate, each with a clock and a pass of its own. The first one's pass takes what was recorded as the farm was opened.
pub(crate) fn make_workers<K: Keeper, C: Clock + Drop, G: Gate + Drop, N: Opened>(
    alloc: Global,
    table: &Table,
    recorder: &mut Recorder<K, N>,
    clock: &C,
    gates: Vec<G>,
) -> Result<Vec<Worker<C, G, N>>, AllocError>
    requires table { table.now ≡ N.table }
    requires opening { recorder.old.view.opening ≡ N.opening }
    requires alone { split_in recorder.old.view.desk ≡ 0 }
    requires some { 1 ≤ vec_len gates }
    requires few { vec_len gates ≤ most_seats }
    ensures workers { IfOk result (λ workers. vec_len workers ≡ vec_len gates) }
    ensures taken { IfOk result (λ _. IsTaken recorder.new) }
    ensures opening { recorder.new.view.opening ≡ N.opening }
    ensures farm { recorder.new.farm ≡ recorder.old.farm }
    ensures keeper { recorder.new.keeper ≡ recorder.old.keeper }
{
    let mut workers = Vec::with_capacity(alloc, gates.len())?;
    for gate in gates {
        let clock = clock.fork(alloc)?;
        let pass = begin_pass(table, recorder, workers.is_empty());
        workers.push_reserved(Worker::make(gate, clock, pass));
    }
    Ok(workers)
}

// The pass of a worker.
fn begin_pass<K: Keeper, N: Opened>(
    table: &Table,
    recorder: &mut Recorder<K, N>,
    is_first: bool,
) -> Pass<N>
    requires table { table.now ≡ N.table }
    requires opening { recorder.old.view.opening ≡ N.opening }
    requires few { split_in recorder.old.view.desk < most_seats }
    requires taken { is_first ≡ false → IsTaken recorder.old }
    ensures free { IsFree N.opening result.view }
    ensures split { IsSplit recorder.old recorder.new }
    ensures taken { IsTaken recorder.new }
{
    if is_first {
        return first_pass(table, recorder);
    }
    next_pass(table, recorder)
}

// A pass that takes the receipt of the opening.
fn first_pass<K: Keeper, N: Opened>(table: &Table, recorder: &mut Recorder<K, N>) -> Pass<N>
    requires table { table.now ≡ N.table }
    requires opening { recorder.old.view.opening ≡ N.opening }
    requires few { split_in recorder.old.view.desk < most_seats }
    ensures free { IsFree N.opening result.view }
    ensures split { IsSplit recorder.old recorder.new }
    ensures taken { IsTaken recorder.new }
{
    let mut pass = next_pass(table, recorder);
    recorder.legal();
    recorder.catch_up(table, &mut pass);
    pass
}

// One more pass.
fn next_pass<K: Keeper, N: Opened>(table: &Table, recorder: &mut Recorder<K, N>) -> Pass<N>
    requires table { table.now ≡ N.table }
    requires opening { recorder.old.view.opening ≡ N.opening }
    requires few { split_in recorder.old.view.desk < most_seats }
    ensures free { IsFree N.opening result.view }
    ensures split { IsSplit recorder.old recorder.new }
    ensures still { IsTaken recorder.old → IsTaken recorder.new }
{
    recorder.rests();
    match open_pass(table, recorder) {
        Ok(pass) => pass,
        Err(_) => unreachable!(),
    }
}
