//! A child program, and the thread that waits for it.

ghost use Rattle.std.specs.Prelude.{◌≡◌, IfOk};
ghost use Rattle.child_spawner.specs.Children.{is_child_of};

use crate::exits::exit_told;
use crate::faults::fault_of;
use crate::shell::shell;
use farm_types::{Attempt, Exit};
use rqd_launcher::SpawnFault;
use std::alloc::{AllocError, Global};
use std::io::{self, PipeReader, Read};
use std::process::{self, Processes, SystemProcess};
use std::rt::Files;
use std::sync::{Arc, Mutex, OnceLock};
use std::thread::{self, JoinHandle, Threads};

// Where a thread finds the child that it waits for; none where it couldn't be started.
type Place = Mutex<Option<process::Child<SystemProcess>>>;

/// An attempt's child: the number of its process group, and how it ended, which its thread tells once.
#[derive(Drop)]
pub(crate) struct Child {
    pub attempt: Attempt,
    pub group: u32,
    ended: Arc<OnceLock<Exit>>,
    waiter: JoinHandle<()>,
}

impl Child {
    /// Starts `sh -c COMMAND` in a process group of its own. The thread that waits for it is had before.
    pub fn start<R: Processes<Started = SystemProcess> + Threads + Files>(
        rt: &R,
        alloc: Global,
        attempt: Attempt,
        command: &str,
    ) -> Result<Child, SpawnFault>
        ensures { IfOk result (λ child. child.attempt ≡ attempt) }
    {
        let mut command = shell(alloc, command)?;
        let ended = Arc::new(alloc, OnceLock::new()).map_err(AllocError::from)?;
        let place: Arc<Place> = Arc::new(alloc, Mutex::new(None)).map_err(AllocError::from)?;
        let told = Arc::try_clone(&ended)?;
        let theirs = Arc::try_clone(&place)?;
        // The gate is open once the bar is gone.
        let (gate, bar) = io::pipe(rt).map_err(|error| fault_of(error.kind()))?;
        let Ok(waiter) = thread::spawn(rt, move || wait_for(gate, &theirs, &told)) else {
            return Err(SpawnFault::Failed);
        };
        match command.spawn(rt) {
            Ok(child) => {
                let group = child.id();
                put(&place, child);
                drop(bar);
                Ok(Child {
                    attempt,
                    group,
                    ended,
                    waiter,
                })
            }
            Err(error) => {
                drop(bar);
                waiter.join(rt);
                Err(fault_of(error.kind()))
            }
        }
    }

    /// Whether it is the attempt's: another attempt of the same slot has another child.
    pub fn is_of(&self, attempt: &Attempt) -> bool
        ensures { result ≡ is_child_of attempt.now self.now }
    {
        self.attempt.slot == attempt.slot && self.attempt.version == attempt.version
    }

    /// How it ended, where it has.
    pub fn exit(&self) -> Option<Exit> {
        self.ended.get().copied()
    }

    /// Joins the thread of a child that has ended.
    pub fn close<R: Threads>(self, rt: &R) {
        let Child { waiter, .. } = self;
        waiter.join(rt);
    }
}

// Puts the child where its thread finds it, which looks there only once the gate is open.
fn put(place: &Place, child: process::Child<SystemProcess>) {
    if let Some(mut place) = place.try_lock() {
        *place = Some(child);
    }
}

// Waits for the gate, and then for the child that stands in the place, if any, and tells how it ended.
fn wait_for(gate: PipeReader, place: &Place, ended: &OnceLock<Exit>) {
    let mut gate = gate;
    let _ = gate.read_exact(&mut [0]);
    if let Some(mut place) = place.try_lock() {
        if let Some(child) = place.as_mut() {
            let _ = ended.try_set(exit_told(child.wait()));
        }
    }
}
