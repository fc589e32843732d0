//! The program over the connections of a port.

ghost use Rattle.std.specs.Prelude.{◌≡◌, Some, IfOk, vec_len};
ghost use Rattle.serving.specs.session.specs.Opening.{MayOpen};
ghost use Rattle.serving.specs.session.specs.Words.{Script};
ghost use Rattle.serving.specs.Words.{ServeWords, serve_form, serve_words};

use crate::file_store::tell_fault;
use command_line::Status;
use cue_io::SystemClock;
use farm_keeper::{Keeper, MemoryKeeper};
use farm_types::Text;
use listener::{AcceptFault, NetListener};
use serving::shared_sessions::shared_rounds::OpenGate;
use serving::{ServeForm, run_serve};
use sqlite::{Start, Unknown};
use std::alloc::{AllocError, Global};
use std::sync::Wait;
use std::thread::Threads;
use store_file::open_keeper;

/// Answers the connections of the words' port over the farm of the words' store, by workers in threads of their own. The store is opened before the port is
/// bound. `Unknown` is what `main` says of it too.
pub fn serve_store<R: Threads + Wait + Sync>(
    rt: &HostRuntime,
    threads: &R,
    words: &[Text],
    form: ServeForm<'_>,
) -> Status
    requires form { serve_form words.now ≡ Some (serve_words form) }
{
    match form.file() {
        Some(path) => serve_file(rt, threads, words, form, path, Unknown),
        None => serve_memory(rt, threads, words, form),
    }
}

// .. over the farm that a file keeps, which is held until the program ends.
fn serve_file<S: Start + Send, R: Threads + Wait + Sync>(
    rt: &HostRuntime,
    threads: &R,
    words: &[Text],
    form: ServeForm<'_>,
    path: &str,
    start: S,
) -> Status
    requires form { serve_form words.now ≡ Some (serve_words form) }
{
    match open_keeper(rt, path, start) {
        Ok(keeper) => {
            let (status, keeper) = serve_keeper(rt, threads, words, form, keeper);
            let _closed = keeper.into_connection().close();
            status
        }
        Err(fault) => tell_fault(rt, path, fault),
    }
}

// .. over a farm in memory, which begins empty and goes with the program.
fn serve_memory<R: Threads + Wait + Sync>(
    rt: &HostRuntime,
    threads: &R,
    words: &[Text],
    form: ServeForm<'_>,
) -> Status
    requires form { serve_form words.now ≡ Some (serve_words form) }
{
    let Ok(keeper) = MemoryKeeper::make(rt.alloc(), &[]) else {
        return Status::NoMemory;
    };
    let (status, _keeper) = serve_keeper(rt, threads, words, form, keeper);
    status
}

// .. over an open store, whose keeper is given back.
fn serve_keeper<K: Keeper + Send, R: Threads + Wait + Sync>(
    rt: &HostRuntime,
    threads: &R,
    words: &[Text],
    form: ServeForm<'_>,
    keeper: K,
) -> (Status, K)
    requires form { serve_form words.now ≡ Some (serve_words form) }
    requires kept { (asks : ServeWords) → serve_form words.now ≡ Some asks → K.tells keeper → MayOpen (Script asks.store) (K.holds keeper) (K.left keeper) }
{
    let Ok(clock_rt) = rt.clone() else {
        return (Status::NoMemory, keeper);
    };
    let Ok(gates) = open_gates(rt.alloc(), form.workers) else {
        return (Status::NoMemory, keeper);
    };
    let mut listener = match NetListener::bind(rt, form.port) {
        Ok(listener) => listener,
        Err(AcceptFault::Failed) => return (Status::NoConnection, keeper),
        Err(AcceptFault::NoMemory) => return (Status::NoMemory, keeper),
    };
    let mut clock = SystemClock::make(clock_rt);
    run_serve(
        threads,
        rt.alloc(),
        words,
        keeper,
        &mut listener,
        &mut clock,
        gates,
    )
}

// A gate a worker, which is always open.
fn open_gates(alloc: Global, workers: u32) -> Result<Vec<OpenGate>, AllocError>
    ensures { IfOk result (λ gates. vec_len gates ≡ workers) }
{
    vec![in alloc; OpenGate; workers as usize]
}
