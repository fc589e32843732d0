//! The call that serves connections.

ghost use Rattle.std.specs.Prelude.{◌≡◌, ◌↔◌, ◌≤◌, ◌⊎◌, ◌∷◌, [], None, Some, vec_len};
ghost use Rattle.booking_table.specs.Seats.{IsSeatOf, view};
ghost use Rattle.cue_io.specs.Readings.{Tells};
ghost use Rattle.fault_counts.specs.Counts.{HasRisen};
ghost use Rattle.session.specs.Opening.{MayOpen};
ghost use Rattle.session.specs.Words.{Script};
ghost use Rattle.shared_sessions.specs.shared_bot.specs.recording_turns.specs.Resting.{IsUnplaced};
ghost use Rattle.serving.specs.Serving.{EndsBy, HasOpened, IsFaultless, IsUnopened};
ghost use Rattle.serving.specs.Words.{ServeWords, serve_form, serve_words};

use crate::opened::{serve_loaded, status};
use crate::serve_words::ServeForm;
use crate::word_form::serve_form;
use booking_table::{Seat, Table};
use command_line::Status;
use cue_io::Clock;
use farm_keeper::Keeper;
use farm_types::Text;
use listener::Listener;
use session::load_stored;
use shared_sessions::shared_rounds::Gate;
use std::alloc::Global;
use std::marker::Brand;
use std::sync::Wait;
use std::thread::Threads;

/// Serves the connections of a listener for the words after the program's name, over a keeper of rows: opens the farm of the rows at the clock's next reading,
/// on a new table of words, and has workers answer the lines of connections beside each other, until so many connections were accepted. There is one worker a
/// gate, and each has a clock of its own. No commit of the keeper was refused since the last one that it took. It waits for callers.
///
/// The status is Done where all connections were accepted, WrongWords for invalid words, StoreFailed where the store failed before the first connection,
/// BadStore where its rows are no farm, NoMemory where memory ran out before the first connection or as workers began, and NoConnection where the listener
/// failed. What ends the session of one connection ends no other one. The keeper is given back: once the workers have
/// ended it holds, where it tells the truth, the rows of a farm to which a legal history leads from the one that was opened.
pub fn run_serve<
    L: Listener + Send,
    K: Keeper + Send,
    C: Clock + Drop + Send + Sync,
    G: Gate + Drop + Send + Sync,
    R: Threads + Wait + Sync,
>(
    rt: &R,
    alloc: Global,
    words: &[Text],
    keeper: K,
    listener: &mut L,
    clock: &mut C,
    gates: Vec<G>,
) -> (Status, K)
where
    L::In: Drop + Send,
    L::Out: Drop + Send,
    requires kept { (asks : ServeWords) → serve_form words.now ≡ Some asks → K.tells keeper → MayOpen (Script asks.store) (K.holds keeper) (K.left keeper) }
    requires gates { (asks : ServeWords) → serve_form words.now ≡ Some asks → vec_len gates ≡ asks.workers }

    // WrongWords comes exactly where the words are invalid, and then nothing is done.
    ensures usage { (result.0 ≡ Status.WrongWords) ↔ (serve_form words.now ≡ None) }
    ensures nothing { serve_form words.now ≡ None → (listener.new ≡ listener.old) × (clock.new ≡ clock.old) × (result.1 ≡ keeper) }

    // What was done for valid words, by the status: how the farm was opened, what became of the keeper, and how many connections were accepted.
    ensures ends { (asks : ServeWords) → serve_form words.now ≡ Some asks → EndsBy result.0 asks
        ((listener.new ≡ listener.old) × (clock.new ≡ clock.old) × (result.1 ≡ keeper))
        (IsUnopened K.tells K.holds K.left K.faults asks.store keeper result.1 (λ moment. Tells (C.readings clock.old) (C.readings clock.new) (moment ∷ []))
        (listener.new ≡ listener.old))
        (HasOpened K.tells K.holds K.left K.faults asks.store keeper result.1 (λ moment. Tells (C.readings clock.old) (C.readings clock.new) (moment ∷ [])))
        (L.accepted listener.old) (L.accepted listener.new) }

    // A fault of the store or of the listener is told only where the keeper's or the listener's count of faults rose in this call.
    ensures store { result.0 ≡ Status.StoreFailed → HasRisen (K.faults keeper) (K.faults result.1) }
    ensures listen { result.0 ≡ Status.NoConnection → HasRisen (L.faults listener.old) (L.faults listener.new) }
    ensures rises { L.faults listener.old ≤ L.faults listener.new }

    // For valid words, where nothing failed and the rows say a farm, all connections were accepted, or memory ran out.
    ensures complete { (asks : ServeWords) → serve_form words.now ≡ Some asks
        → IsFaultless K.tells K.holds K.faults keeper result.1 (L.faults listener.old) (L.faults listener.new)
        → (result.0 ≡ Status.Done) ⊎ (result.0 ≡ Status.NoMemory) }
{
    let Some(form) = serve_form(words) else {
        return (Status::WrongWords, keeper);
    };
    let Ok((table, seat)) = Table::make(alloc) else {
        return (Status::NoMemory, keeper);
    };
    serve_store(rt, alloc, form, table, seat, keeper, listener, clock, gates)
}

// Loads the farm of the store, and serves over it.
fn serve_store<
    L: Listener + Send,
    K: Keeper + Send,
    C: Clock + Drop + Send + Sync,
    G: Gate + Drop + Send + Sync,
    R: Threads + Wait + Sync,
>(
    rt: &R,
    alloc: Global,
    form: ServeForm<'_>,
    table: Table,
    seat: Seat,
    keeper: K,
    listener: &mut L,
    clock: &mut C,
    gates: Vec<G>,
) -> (Status, K)
where
    L::In: Drop + Send,
    L::Out: Drop + Send,
    requires kept { K.tells keeper → MayOpen (Script form.store.now) (K.holds keeper) (K.left keeper) }
    requires gates { vec_len gates ≡ form.workers }
    requires workers { (1 ≤ form.workers) × (form.workers ≤ 64) }
    requires seat { IsSeatOf table seat }
    requires unplaced { IsUnplaced (view seat) }
    ensures ends { EndsBy result.0 (serve_words form.entry) ⊥
        (IsUnopened K.tells K.holds K.left K.faults form.entry.store.now keeper result.1
        (λ moment. Tells (C.readings clock.old) (C.readings clock.new) (moment ∷ [])) (listener.new ≡ listener.old))
        (HasOpened K.tells K.holds K.left K.faults form.entry.store.now keeper result.1
        (λ moment. Tells (C.readings clock.old) (C.readings clock.new) (moment ∷ [])))
        (L.accepted listener.old) (L.accepted listener.new) }
    ensures listen { result.0 ≡ Status.NoConnection → HasRisen (L.faults listener.old) (L.faults listener.new) }
    ensures rises { L.faults listener.old ≤ L.faults listener.new }
{
    let moment = clock.now();
    let mut keeper = keeper;
    match load_stored(alloc, &mut keeper) {
        Ok(recovered) => serve_loaded::<L, K, C, G, Brand, R>(
            rt,
            alloc,
            form,
            table,
            seat,
            recovered.farm,
            recovered.format,
            moment,
            keeper,
            listener,
            clock,
            gates,
        ),
        Err(fault) => (status(fault), keeper),
    }
}
