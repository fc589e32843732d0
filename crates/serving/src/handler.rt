//! What workers do with connections.

ghost use Rattle.std.specs.Prelude.{◌≡◌, ◌≤◌, vec_len};
ghost use Rattle.fault_counts.specs.Counts.{HasRisen};
ghost use Rattle.serving.specs.Serving.{EndsServing};

use crate::worker::Worker;
use command_line::Status;
use cue_io::Clock;
use farm_keeper::Keeper;
use listener::Listener;
use shared_sessions::shared_bot::{Bot, Opened};
use shared_sessions::shared_rounds::Gate;
use std::alloc::Global;
use std::marker::PhantomData;
use std::sync::Wait;
use std::thread::Threads;
use worker_pool::{Handler, WorkersFault, run_workers};

/// Has the workers serve so many connections over what they share.
pub(crate) fn serve_workers<
    L: Listener + Send,
    K: Keeper + Send,
    C: Clock + Drop + Send + Sync,
    G: Gate + Drop + Send + Sync,
    N: Opened + Send + Sync,
    R: Threads + Wait + Sync,
>(
    rt: &R,
    alloc: Global,
    bot: &Bot<K, N>,
    workers: Vec<Worker<C, G, N>>,
    connections: u32,
    listener: &mut L,
) -> Status
where
    L::In: Drop + Send,
    L::Out: Drop + Send,
    requires { (1 ≤ vec_len workers) × (vec_len workers ≤ 64) }
    ensures ends { EndsServing result connections (L.accepted listener.old) (L.accepted listener.new) }
    ensures listen { result ≡ Status.NoConnection → HasRisen (L.faults listener.old) (L.faults listener.new) }
    ensures rises { L.faults listener.old ≤ L.faults listener.new }
{
    let answering = Answering {
        rt,
        alloc,
        bot,
        of: PhantomData,
    };
    match run_workers(rt, listener, &answering, workers, u64::from(connections)) {
        Ok(()) => Status::Done,
        Err(WorkersFault::Accept) => Status::NoConnection,
        Err(WorkersFault::NoMemory) => Status::NoMemory,
    }
}

// Answers the lines of a connection, over what the workers share.
#[derive(Drop)]
struct Answering<'a, K: Keeper, C: Clock, G: Gate, N: Opened, R: Wait> {
    rt: &'a R,
    alloc: Global,
    bot: &'a Bot<K, N>,
    of: PhantomData<(C, G)>,
}

impl<L: Listener, K: Keeper, C: Clock, G: Gate, N: Opened, R: Wait> Handler<L>
    for Answering<'_, K, C, G, N, R>
where
    L::In: Drop,
    L::Out: Drop,
{
    type State = Worker<C, G, N>;

    fn handle(&self, worker: &mut Worker<C, G, N>, input: L::In, output: L::Out) {
        let (mut input, mut output) = (input, output);
        worker.serve(self.rt, self.alloc, self.bot, &mut input, &mut output);
    }
}
