//! A spawner in memory.
ghost use Rattle.std.specs.Prelude.{◌≡◌, ◌≤◌, ◌++◌, ◌∷◌, [], true, false, Some, IfOk, OnOk, OnErr};
ghost use Rattle.std.specs.Result.{IsErrOf};
ghost use Rattle.fault_counts.specs.Counts.{HasRisen};
ghost use Rattle.fault_counts.specs.Plans.{after_call, is_to_fail};
ghost use Rattle.rqd_launcher.specs.declared.call.SpawnTask.TheVariants.{Start, Poll, Stop};
ghost use Rattle.rqd_launcher.specs.declared.spawner.SpawnFault.TheVariants.{Failed};
ghost use Rattle.cue_io.specs.Growth.{Grows};
ghost use Rattle.rqd_launcher.specs.Calls.{act_answer, poll_answer, told_as};
ghost use Rattle.rqd_launcher.specs.Memory.{Plays, exit_of, listed_exit, new_spawner, was_started};

use crate::call::{SpawnAnswer, SpawnCall, SpawnTask};
use crate::spawner::{SpawnFault, Spawner};
use farm_types::{Attempt, Exit, Text};
use fault_counts::FaultPlan;
use std::alloc::{AllocError, Global};
use std::marker::Model;

/// A spawner that starts nothing, and fails at the listed calls. A listed attempt has ended once it was started, and every other one never does;
/// stopping changes nothing of that.
#[derive(Drop)]
pub struct MemorySpawner {
    exits: Vec<(Attempt, Exit)>,
    plan: FaultPlan,
    calls: Vec<SpawnCall>,
}

impl Model for MemorySpawner {
    ghost use Rattle.rqd_launcher.specs.Memory.{Spawned};

    ghost Value = { Spawned };

    ghost view = { λ s. record { exits = s.exits.items; plan = s.plan; calls = s.calls.items } };
}

impl MemorySpawner {
    /// A spawner with no call so far. `exits` lists how attempts end, the first line for each; the calls in `fails` fail, by their number from 1, calls
    /// of all three kinds together.
    pub fn make(
        alloc: Global,
        exits: &[(Attempt, Exit)],
        fails: &[u64],
    ) -> Result<MemorySpawner, AllocError>
        ensures { IfOk result (λ spawner. spawner ≡ new_spawner exits.now fails.now) }
    {
        Ok(MemorySpawner {
            exits: Vec::from_slice(alloc, exits)?,
            plan: FaultPlan::make(alloc, fails)?,
            calls: Vec::new(alloc),
        })
    }

    /// The calls with their answers, the first one first, without those that found no memory.
    pub fn calls(&self) -> &[SpawnCall]
        ensures { result.now ≡ self.now.calls }
    {
        &self.calls
    }

    /// How many calls failed.
    pub fn faults(&self) -> u64
        ensures { result ≡ self.now.plan.faults }
    {
        self.plan.faults()
    }

    // Counts a call, and says whether it fails.
    fn count_call(&mut self) -> bool
        ensures fails { result ≡ is_to_fail self.old.plan }
        ensures after { self.new ≡ record self.old { plan = after_call self.old.plan } }
        ensures cause { result ≡ true → HasRisen self.old.plan.faults self.new.plan.faults }
        ensures rises { self.old.plan.faults ≤ self.new.plan.faults }
    {
        self.plan.call()
    }

    // Puts a call on the list.
    fn list_call(&mut self, task: SpawnTask, answer: SpawnAnswer) -> Result<(), AllocError>
        ensures ok { OnOk result (self.new ≡ record self.old { calls = self.old.calls ++ record { task = task; answer = answer } ∷ [] }) }
        ensures err { OnErr result (self.new ≡ self.old) }
    {
        self.calls.push(SpawnCall { task, answer })?;
        Ok(())
    }

    // How an attempt ended, where it has.
    fn exit_of(&self, attempt: &Attempt) -> Option<Exit>
        ensures { result ≡ exit_of self.now attempt.now }
    {
        if was_started(self.calls.as_slice(), attempt) {
            listed_exit(self.exits.as_slice(), attempt)
        } else {
            None
        }
    }
}

// Whether one of the calls started the attempt.
fn was_started(calls: &[SpawnCall], attempt: &Attempt) -> bool
    ensures { result ≡ was_started attempt.now calls.now }
{
    calls.iter().any(|call| call.is_start_of(attempt))
}

// How the list says that the attempt ends.
fn listed_exit(exits: &[(Attempt, Exit)], attempt: &Attempt) -> Option<Exit>
    ensures { result ≡ listed_exit attempt.now exits.now }
{
    for (other, exit) in exits {
        if attempt == other {
            return Some(*exit);
        }
    }
    None
}

impl Spawner for MemorySpawner {
    ghost calls = { λ s. Some s.calls };

    ghost faults = { λ s. s.plan.faults };

    fn start(&mut self, alloc: Global, attempt: Attempt, command: &str) -> Result<(), SpawnFault>
        ensures told { Grows (Some self.old.calls) (Some self.new.calls) (told_as (Start attempt command.now) (act_answer result)) }
        ensures cause { IsErrOf result Failed → HasRisen self.old.plan.faults self.new.plan.faults }
        ensures rises { self.old.plan.faults ≤ self.new.plan.faults }

        // exactly what a call answers and leaves
        ensures exact { Plays self.old (Start attempt command.now) (act_answer result) self.new }
    {
        let fails = self.count_call();
        let command = Text::from_str(alloc, command)?;
        self.act(SpawnTask::Start { attempt, command }, fails)
    }

    fn poll(&mut self, _alloc: Global, attempt: Attempt) -> Result<Option<Exit>, SpawnFault>
        ensures told { Grows (Some self.old.calls) (Some self.new.calls) (told_as (Poll attempt) (poll_answer result)) }
        ensures cause { IsErrOf result Failed → HasRisen self.old.plan.faults self.new.plan.faults }
        ensures rises { self.old.plan.faults ≤ self.new.plan.faults }

        // exactly what a call answers and leaves
        ensures exact { Plays self.old (Poll attempt) (poll_answer result) self.new }
    {
        if self.count_call() {
            self.list_call(SpawnTask::Poll { attempt }, SpawnAnswer::Failed)?;
            return Err(SpawnFault::Failed);
        }
        let exit = self.exit_of(&attempt);
        self.list_call(SpawnTask::Poll { attempt }, SpawnAnswer::of_poll(&exit))?;
        Ok(exit)
    }

    fn stop(&mut self, _alloc: Global, attempt: Attempt) -> Result<(), SpawnFault>
        ensures told { Grows (Some self.old.calls) (Some self.new.calls) (told_as (Stop attempt) (act_answer result)) }
        ensures cause { IsErrOf result Failed → HasRisen self.old.plan.faults self.new.plan.faults }
        ensures rises { self.old.plan.faults ≤ self.new.plan.faults }

        // exactly what a call answers and leaves
        ensures exact { Plays self.old (Stop attempt) (act_answer result) self.new }
    {
        let fails = self.count_call();
        self.act(SpawnTask::Stop { attempt }, fails)
    }
}

impl MemorySpawner {
    // Lists a start or a stop, and answers it.
    fn act(&mut self, task: SpawnTask, fails: bool) -> Result<(), SpawnFault>
        ensures told { Grows (Some self.old.calls) (Some self.new.calls) (told_as task (act_answer result)) }
        ensures failed { IsErrOf result Failed → fails ≡ true }
        ensures done { OnOk result (fails ≡ false) }
        ensures kept { self.new ≡ record self.old { calls = self.new.calls } }
    {
        if fails {
            self.list_call(task, SpawnAnswer::Failed)?;
            return Err(SpawnFault::Failed);
        }
        self.list_call(task, SpawnAnswer::Done)?;
        Ok(())
    }
}
