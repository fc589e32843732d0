//! A listener in memory.

ghost use Rattle.std.specs.Prelude.{◌≡◌, ◌≤◌, IfOk, IsErrOf, MatchResult};
ghost use Rattle.fault_counts.specs.Counts.{HasRisen, incremented};
ghost use Rattle.fault_counts.specs.Plans.{new_plan};
ghost use Rattle.listener.specs.Memory.{Accepts};
ghost use Rattle.listener.specs.declared.accept.AcceptFault.TheVariants.{Failed};

use crate::accept::{AcceptFault, Listener};
use cue_io::{MemorySink, MemorySource};
use fault_counts::FaultPlan;
use std::alloc::{AllocError, Global};
use std::collections::VecDeque;
use std::marker::Model;

/// A listener whose connections come from a list of sources in memory, in its order, each with a sink in memory of its own. It fails at the listed calls, and
/// where no source is left.
#[derive(Drop)]
pub struct MemoryListener {
    alloc: Global,
    inputs: VecDeque<MemorySource>,
    room: usize,
    plan: FaultPlan,
    accepted: u64,
}

impl Model for MemoryListener {
    ghost use Rattle.listener.specs.Memory.{Waiting};

    ghost Value = { Waiting };

    ghost view = { λ l. record { inputs = l.inputs.items; room = l.room; plan = l.plan; accepted = l.accepted } };
}

impl MemoryListener {
    /// A listener that accepted nothing yet. Each of its sinks takes `room` bytes in all, and a piece that fits whole. The calls in `fails` fail, by their
    /// number from 1.
    pub fn make(
        alloc: Global,
        inputs: Vec<MemorySource>,
        room: usize,
        fails: &[u64],
    ) -> Result<MemoryListener, AllocError>
        ensures { IfOk result (λ l. l ≡ record { inputs = inputs.items; room = room; plan = new_plan fails.now; accepted = 0 }) }
    {
        Ok(MemoryListener {
            alloc,
            inputs: VecDeque::from(inputs),
            room,
            plan: FaultPlan::make(alloc, fails)?,
            accepted: 0,
        })
    }

    /// How many connections were accepted.
    pub fn accepted(&self) -> u64
        ensures { result ≡ self.now.accepted }
    {
        self.accepted
    }

    /// How many calls failed.
    pub fn faults(&self) -> u64
        ensures { result ≡ self.now.plan.faults }
    {
        self.plan.faults()
    }
}

impl Listener for MemoryListener {
    ghost accepted = { λ l. l.accepted };

    ghost faults = { λ l. l.plan.faults };

    type In = MemorySource;

    type Out = MemorySink;

    fn accept(&mut self) -> Result<(MemorySource, MemorySink), AcceptFault>
        ensures accepted { MatchResult result (λ _. self.new.accepted ≡ incremented self.old.accepted) (λ _. self.new.accepted ≡ self.old.accepted) }
        ensures cause { IsErrOf result Failed → HasRisen self.old.plan.faults self.new.plan.faults }
        ensures rises { self.old.plan.faults ≤ self.new.plan.faults }

        // exactly what a call does
        ensures does { Accepts self.old result self.new }
    {
        if self.plan.count_call() || self.inputs.is_empty() {
            self.plan.fault();
            return Err(AcceptFault::Failed);
        }
        let sink = MemorySink::make(self.alloc, self.room, self.room, &[])?;
        let Some(source) = self.inputs.pop_front() else {
            unreachable!()
        };
        self.accepted = self.accepted.saturating_add(1);
        Ok((source, sink))
    }
}
