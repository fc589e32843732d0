//! The workers of a listener.

ghost use Rattle.std.specs.Prelude.{◌≡◌, ◌≤◌, IsErrOf, OnErr, OnOk, vec_len};
ghost use Rattle.fault_counts.specs.Counts.{HasRisen, HasRisenBy};
ghost use Rattle.worker_pool.specs.Taken.{HasRisenByLess};
ghost use Rattle.worker_pool.specs.declared.fault.WorkersFault.TheVariants.{Accept};

use crate::desk::{Desk, Start};
use crate::fault::WorkersFault;
use crate::handler::Handler;
use listener::Listener;
use std::marker::{Brand, PhantomData};
use std::sync::{Mutex, Wait};
use std::thread;
use std::thread::Threads;

/// Accepts so many connections, and has each handled by one of the workers. There is a worker for each of 1 to 64 states, numbered by its place. A worker takes
/// the next connection once it is through with its last one, so that a caller who is silent holds one worker alone. Where a thread can't be had, the caller
/// does that worker's work itself, in turn. Once a connection couldn't be had, no more are taken. Returns once each worker is through.
pub fn run_workers<L: Listener + Send, H: Handler<L> + Sync, R: Threads + Wait + Sync>(
    rt: &R,
    listener: &mut L,
    handler: &H,
    states: Vec<H::State>,
    connections: u64,
) -> Result<(), WorkersFault>
where
    L::In: Send,
    L::Out: Send,
    H::State: Drop + Send,
    requires { (1 ≤ vec_len states) × (vec_len states ≤ 64) }
    ensures ok { OnOk result (HasRisenBy connections (L.accepted listener.old) (L.accepted listener.new)) }
    ensures short { OnErr result (HasRisenByLess connections (L.accepted listener.old) (L.accepted listener.new)) }
    ensures cause { IsErrOf result Accept → HasRisen (L.faults listener.old) (L.faults listener.new) }
    ensures rises { L.faults listener.old ≤ L.faults listener.new }
{
    let (listener, outcome) = share::<L, H, Brand, R>(rt, listener, handler, states, connections);
    give_back(listener);
    outcome
}

// The same, for workers that began so.
fn share<'a, L: Listener + Send, H: Handler<L> + Sync, S: Start + Send, R: Threads + Wait + Sync>(
    rt: &R,
    listener: &'a mut L,
    handler: &H,
    states: Vec<H::State>,
    connections: u64,
) -> (&'a mut L, Result<(), WorkersFault>)
where
    L::In: Send,
    L::Out: Send,
    H::State: Drop + Send,
    requires listener { listener.ghost_name ≡ S.listener }
    requires accepted { L.accepted listener.old ≡ S.accepted }
    requires faults { L.faults listener.old ≡ S.faults }
    requires connections { connections ≡ S.connections }
    ensures same { result.0.ghost_name ≡ listener.entry.ghost_name }
    ensures ok { OnOk result.1 (HasRisenBy S.connections S.accepted (L.accepted result.0.now)) }
    ensures short { OnErr result.1 (HasRisenByLess S.connections S.accepted (L.accepted result.0.now)) }
    ensures cause { IsErrOf result.1 Accept → HasRisen S.faults (L.faults result.0.now) }
    ensures rises { S.faults ≤ L.faults result.0.now }
{
    let desk: Desk<'a, L, S> = Desk {
        listener,
        connections,
        taken: 0,
        fault: None,
        of: PhantomData,
    };
    let desk = Mutex::new(desk);
    serve_all(rt, &desk, handler, states, connections);
    desk.into_inner().close()
}

// Has each worker serve, and waits for them. Where memory runs out some don't serve; what the others left is seen at the desk.
fn serve_all<L: Listener + Send, H: Handler<L> + Sync, S: Start + Send, R: Threads + Wait + Sync>(
    rt: &R,
    desk: &Mutex<Desk<'_, L, S>>,
    handler: &H,
    states: Vec<H::State>,
    connections: u64,
)
where
    L::In: Send,
    L::Out: Send,
    H::State: Drop + Send,
{
    let _ = thread::map_vec(
        rt,
        states,
        &|state: H::State| serve(rt, desk, handler, state, connections),
    );
}

// One worker: handles one connection after the other, until none is left.
fn serve<L: Listener, H: Handler<L>, S: Start, R: Wait>(
    rt: &R,
    desk: &Mutex<Desk<'_, L, S>>,
    handler: &H,
    mut state: H::State,
    connections: u64,
)
where
    H::State: Drop,
{
    for _connection in 0..connections {
        let Some((input, output)) = take(rt, desk) else {
            break;
        };
        handler.handle(&mut state, input, output);
    }
}

// The next connection, once no other worker waits for one.
fn take<L: Listener, S: Start, R: Wait>(
    rt: &R,
    desk: &Mutex<Desk<'_, L, S>>,
) -> Option<(L::In, L::Out)> {
    desk.lock(rt).take()
}

// Lets the listener go.
fn give_back<L>(listener: &mut L)
    ensures { listener.new ≡ listener.old }
{}
