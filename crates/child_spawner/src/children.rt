//! The spawner over child programs.

ghost use Rattle.std.specs.Prelude.{◌≡◌, ◌<◌, ◌≤◌, None, IfSome, vec_len};
ghost use Rattle.std.specs.List.{position};
ghost use Rattle.child_spawner.specs.Children.{is_child_of};
ghost use Rattle.fault_counts.specs.Counts.{HasRisen};
ghost use Rattle.rqd_launcher.specs.declared.spawner.SpawnFault.TheVariants.{Failed};

use crate::child::Child;
use crate::group::end_group;
use farm_types::{Attempt, Exit};
use rqd_launcher::{SpawnFault, Spawner};
use std::alloc::Global;
use std::process::{Processes, SystemProcess};
use std::rt::Files;
use std::thread::Threads;

/// Starts each attempt as a child program, `sh -c COMMAND`, in a process group of its own (by the program `setsid`), and waits for it in a thread of its own,
/// which it has before it starts the child. Stopping ends the child's process group at once; what left the group runs on. A child's output goes nowhere.
/// It tells nothing of its calls, and counts those that fail. That an attempt has ended is told by one poll.
#[derive(Drop)]
pub struct ChildSpawner<R> {
    rt: R,
    children: Vec<Child>,
    faults: u64,
}

impl<R> ChildSpawner<R> {
    pub fn make(alloc: Global, rt: R) -> ChildSpawner<R> {
        ChildSpawner {
            rt,
            children: Vec::new(alloc),
            faults: 0,
        }
    }

    /// How many calls failed.
    pub fn faults(&self) -> u64
        ensures { result ≡ self.now.faults }
    {
        self.faults
    }

    // Counts a call that failed.
    fn count(&mut self, fault: SpawnFault) -> SpawnFault
        ensures same { result ≡ fault }
        ensures cause { fault ≡ Failed → HasRisen self.old.faults self.new.faults }
        ensures rises { self.old.faults ≤ self.new.faults }
    {
        if fault == SpawnFault::Failed {
            self.faults = self.faults.saturating_add(1);
        }
        fault
    }

    // The place of an attempt's child.
    fn place(&self, attempt: &Attempt) -> Option<usize>
        ensures place { result ≡ position (is_child_of attempt.now) self.now.children.items }
        ensures within { IfSome result (λ place. place < vec_len self.now.children) }
    {
        self.children.iter().position(|child| child.is_of(attempt))
    }
}

impl<R: Processes<Started = SystemProcess> + Threads + Files + Drop> Spawner for ChildSpawner<R> {
    ghost calls = { λ _. None };

    ghost faults = { λ s. s.faults };

    fn start(&mut self, alloc: Global, attempt: Attempt, command: &str) -> Result<(), SpawnFault> {
        self.children.reserve(1)?;
        match Child::start(&self.rt, alloc, attempt, command) {
            Ok(child) => {
                self.children.push_reserved(child);
                Ok(())
            }
            Err(fault) => Err(self.count(fault)),
        }
    }

    fn poll(&mut self, _alloc: Global, attempt: Attempt) -> Result<Option<Exit>, SpawnFault> {
        let Some(place) = self.place(&attempt) else {
            return Ok(None);
        };
        let exit = self.children[place].exit();
        if exit.is_some() {
            let child = self.children.swap_remove(place);
            child.close(&self.rt);
        }
        Ok(exit)
    }

    fn stop(&mut self, alloc: Global, attempt: Attempt) -> Result<(), SpawnFault> {
        let Some(place) = self.place(&attempt) else {
            return Ok(());
        };
        if self.children[place].exit().is_some() {
            return Ok(());
        }
        let group = self.children[place].group;
        match end_group(&self.rt, alloc, group) {
            Ok(true) => Ok(()),
            Ok(false) if self.children[place].exit().is_some() => Ok(()),
            Ok(false) => Err(self.count(SpawnFault::Failed)),
            Err(fault) => Err(self.count(fault)),
        }
    }
}
