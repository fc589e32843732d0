//! Runs of the scheduler over a store in memory.

ghost use Rattle.std.specs.Prelude.{◌≡◌, [], Some, IfOk, IsTrue};
ghost use Rattle.serving.specs.Words.{ServeWords, serve_form};

use command_line::Status;
use cue_io::MemoryClock;
use farm_keeper::MemoryKeeper;
use farm_types::{Items, Text};
use listener::Listener;
use serving::shared_sessions::shared_rounds::Gate;
use serving::{run_serve, serve_form};
use std::alloc::{AllocError, Global};
use std::sync::Wait;
use std::thread::Threads;

/// Two workers over a store that begins empty, for two connections.
pub(crate) const TWO: [&str; 5] = ["serve", ":memory:", "7412", "2", "2"];

/// Runs the scheduler for words over a store that begins empty, whose calls in `failing` fail. Words of its form want a gate a worker.
pub(crate) fn serve<L: Listener + Send, G: Gate + Drop + Send + Sync, R: Threads + Wait + Sync>(
    rt: &R,
    alloc: Global,
    words: &[&str],
    failing: &[u64],
    listener: &mut L,
    gates: Vec<G>,
) -> Result<Status, AllocError>
where
    L::In: Drop + Send,
    L::Out: Drop + Send,
{
    let (status, _keeper) = serve_over(rt, alloc, words, keeper(alloc, failing)?, listener, gates)?;
    Ok(status)
}

/// A keeper of no rows, whose calls in `failing` fail.
pub(crate) fn keeper(alloc: Global, failing: &[u64]) -> Result<MemoryKeeper, AllocError>
    ensures { IfOk result (λ keeper. keeper.refused ≡ []) }
{
    MemoryKeeper::make(alloc, failing)
}

/// Runs it over a keeper in memory that refused no batch since the last one that it took, and gives the keeper back.
pub(crate) fn serve_over<
    L: Listener + Send,
    G: Gate + Drop + Send + Sync,
    R: Threads + Wait + Sync,
>(
    rt: &R,
    alloc: Global,
    words: &[&str],
    keeper: MemoryKeeper,
    listener: &mut L,
    gates: Vec<G>,
) -> Result<(Status, MemoryKeeper), AllocError>
where
    L::In: Drop + Send,
    L::Out: Drop + Send,
    requires { keeper.refused ≡ [] }
{
    let words = texts(alloc, words)?;
    let mut clock = MemoryClock::make(alloc, &[0])?;
    if !has_gates(words.as_slice(), gates.len()) {
        return Err(AllocError);
    }
    Ok(run_serve(
        rt,
        alloc,
        words.as_slice(),
        keeper,
        listener,
        &mut clock,
        gates,
    ))
}

// The words as texts.
fn texts(alloc: Global, words: &[&str]) -> Result<Items<Text>, AllocError> {
    let mut texts = Items::new(alloc);
    for word in words {
        texts.push(Text::from_str(alloc, word)?)?;
    }
    Ok(texts)
}

// Whether there is a gate a worker, where the words say how many workers there are.
fn has_gates(words: &[Text], gates: usize) -> bool
    ensures { IsTrue result → (asks : ServeWords) → serve_form words.now ≡ Some asks → gates ≡ asks.workers }
{
    match serve_form(words) {
        Some(form) => form.workers as usize == gates,
        None => true,
    }
}
