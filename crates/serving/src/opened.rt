//! Serving over the farm of a store.

ghost use Rattle.std.specs.Prelude.{◌≡◌, ◌≤◌, vec_len};
ghost use Rattle.booking_rule.specs.Link.{farm_of, opening_of};
ghost use Rattle.booking_table.specs.Seats.{IsSeatOf, view};
ghost use Rattle.farm_rows.specs.Rows.{HasRowsIn};
ghost use Rattle.fault_counts.specs.Counts.{HasRisen};
ghost use Rattle.recovery.specs.Migration.{HasRows};
ghost use Rattle.session.specs.Opening.{IsLoadedFrom};
ghost use Rattle.shared_sessions.specs.shared_bot.specs.recording_turns.specs.Resting.{IsUnplaced, split_in};
ghost use Rattle.serving.specs.Serving.{EndsBy, HasOpened, HoldsHistory, IsGivenBack, IsUnopened, status_of};
ghost use Rattle.serving.specs.Words.{serve_words};

use crate::handler::serve_workers;
use crate::serve_words::ServeForm;
use crate::workers::make_workers;
use booking_table::{Seat, Table};
use command_line::Status;
use cue_io::Clock;
use farm_keeper::Keeper;
use farm_law::legal_runs_are_safe;
use listener::Listener;
use session::{Form, OpenFault, Opening, open_loaded};
use shared_sessions::booking_recorder::Recorder;
use shared_sessions::shared_bot::farm_core::Farm;
use shared_sessions::shared_bot::{Bot, Opened};
use shared_sessions::shared_rounds::Gate;
use std::alloc::Global;
use std::sync::Wait;
use std::thread::Threads;

/// Opens the farm that was loaded of a store, and serves over it.
pub(crate) fn serve_loaded<
    L: Listener + Send,
    K: Keeper + Send,
    C: Clock + Drop + Send + Sync,
    G: Gate + Drop + Send + Sync,
    N: Opened + Send + Sync,
    R: Threads + Wait + Sync,
>(
    rt: &R,
    alloc: Global,
    form: ServeForm<'_>,
    table: Table,
    seat: Seat,
    farm: Farm,
    format: u64,
    moment: u64,
    keeper: K,
    listener: &mut L,
    clock: &C,
    gates: Vec<G>,
) -> (Status, K)
where
    L::In: Drop + Send,
    L::Out: Drop + Send,
    requires table { table ≡ N.table }
    requires opening { opening_of farm ≡ N.opening }
    requires rows { HasRowsIn format farm }
    requires kept { K.tells keeper → HasRows (K.holds keeper) (K.left keeper) format farm }
    requires gates { vec_len gates ≡ form.workers }
    requires workers { (1 ≤ form.workers) × (form.workers ≤ 64) }
    requires seat { IsSeatOf table seat }
    requires unplaced { IsUnplaced (view seat) }
    ensures ends { (given : K) → IsLoadedFrom K.tells K.holds K.left K.faults given farm format keeper → EndsBy result.0 (serve_words form.entry) ⊥
        (IsUnopened K.tells K.holds K.left K.faults form.entry.store.now given result.1 (λ m. m ≡ moment) (listener.new ≡ listener.old))
        (HasOpened K.tells K.holds K.left K.faults form.entry.store.now given result.1 (λ m. m ≡ moment))
        (L.accepted listener.old) (L.accepted listener.new) }
    ensures listen { result.0 ≡ Status.NoConnection → HasRisen (L.faults listener.old) (L.faults listener.new) }
    ensures rises { L.faults listener.old ≤ L.faults listener.new }
{
    let stored = Form::Script { store: form.store };
    match open_loaded::<K, N>(alloc, stored, keeper, farm, format, &table, seat, moment) {
        Opening::Opened { recorder } => {
            recorder.recorded();
            serve_opened(rt, alloc, form, table, recorder, listener, clock, gates)
        }
        Opening::Failed { keeper, fault } => (status(fault), keeper),
    }
}

// Makes the workers over a farm that was opened, and lets them serve.
fn serve_opened<
    L: Listener + Send,
    K: Keeper + Send,
    C: Clock + Drop + Send + Sync,
    G: Gate + Drop + Send + Sync,
    N: Opened + Send + Sync,
    R: Threads + Wait + Sync,
>(
    rt: &R,
    alloc: Global,
    form: ServeForm<'_>,
    table: Table,
    recorder: Recorder<K, N>,
    listener: &mut L,
    clock: &C,
    gates: Vec<G>,
) -> (Status, K)
where
    L::In: Drop + Send,
    L::Out: Drop + Send,
    requires table { table ≡ N.table }
    requires opening { recorder.view.opening ≡ N.opening }
    requires alone { split_in recorder.view.desk ≡ 0 }
    requires gates { vec_len gates ≡ form.workers }
    requires workers { (1 ≤ form.workers) × (form.workers ≤ 64) }
    ensures ends { EndsBy result.0 (serve_words form.entry) ⊥ (IsGivenBack recorder.keeper result.1 (listener.new ≡ listener.old))
        (HoldsHistory (K.tells result.1) (K.holds result.1) (K.left result.1) (farm_of N.opening)) (L.accepted listener.old) (L.accepted listener.new) }
    ensures listen { result.0 ≡ Status.NoConnection → HasRisen (L.faults listener.old) (L.faults listener.new) }
    ensures rises { L.faults listener.old ≤ L.faults listener.new }
{
    let mut recorder = recorder;
    match make_workers(alloc, &table, &mut recorder, clock, gates) {
        Ok(workers) => {
            let bot = Bot::make(table, recorder);
            let status = serve_workers(rt, alloc, &bot, workers, form.connections, listener);
            (status, keeper_of(bot.close()))
        }
        Err(_) => (Status::NoMemory, keeper_of(recorder)),
    }
}

// The recorder's keeper, and what it holds.
fn keeper_of<K: Keeper, N: Opened>(recorder: Recorder<K, N>) -> K
    requires opening { recorder.view.opening ≡ N.opening }
    ensures same { result ≡ recorder.keeper }
    ensures served { HoldsHistory (K.tells result) (K.holds result) (K.left result) (farm_of N.opening) }
{
    legal_runs_are_safe();
    recorder.legal();
    recorder.rests();
    let (keeper, _seat) = recorder.close();
    keeper
}

/// The status where no farm was opened.
pub(crate) fn status(fault: OpenFault) -> Status
    ensures { result ≡ status_of fault }
{
    match fault {
        OpenFault::Store => Status::StoreFailed,
        OpenFault::Bad { .. } => Status::BadStore,
        OpenFault::NoMemory => Status::NoMemory,
    }
}
