//! A sink in memory.
ghost use Rattle.std.specs.Prelude.{◌≡◌, ◌<◌, ◌≤◌, [], true, false, Some, length, take, IfOk, OnErr};
ghost use Rattle.fault_counts.specs.Counts.{HasRisen};
ghost use Rattle.cue_io.specs.Output.{Adds};
ghost use Rattle.fault_counts.specs.Plans.{after_call, is_to_fail, new_plan};
ghost use Rattle.cue_io.specs.Memory.{Store, after_write, write_count};

use crate::sink::{Sink, SinkFault};
use fault_counts::FaultPlan;
use std::alloc::{AllocError, Global};
use std::marker::Model;

/// A sink that keeps what is written in memory, and fails at the listed calls.
#[derive(Drop)]
pub struct MemorySink {
    bytes: Vec<u8>,
    most: usize,
    capacity: usize,
    plan: FaultPlan,
}

impl Model for MemorySink {
    ghost use Rattle.std.specs.Prelude.{◌≤◌, vec_len, vec_capacity};
    ghost use Rattle.cue_io.specs.Memory.{Store};

    ghost Value = { Store };

    ghost view = { λ s. record { written = s.bytes.items; most = s.most; capacity = s.capacity; plan = s.plan } };

    ghost invariant = { λ s. (vec_len s.bytes ≤ s.capacity) × (s.capacity ≤ vec_capacity s.bytes) };
}

impl MemorySink {
    /// A sink with capacity for so many bytes, all reserved here. A write takes at most `most` bytes. The calls in `fails`
    /// fail, by their number from 1.
    pub fn make(
        alloc: Global,
        most: usize,
        capacity: usize,
        fails: &[u64],
    ) -> Result<MemorySink, AllocError>
        ensures { IfOk result (λ s. s ≡ record { written = []; most = most; capacity = capacity; plan = new_plan fails.now }) }
    {
        Ok(MemorySink {
            bytes: Vec::with_capacity(alloc, capacity)?,
            most,
            capacity,
            plan: FaultPlan::make(alloc, fails)?,
        })
    }

    /// What was written.
    pub fn written(&self) -> &[u8]
        ensures { result.now ≡ self.now.written }
    {
        &self.bytes
    }

    /// How many calls failed, or took nothing of a piece that wasn't empty.
    pub fn faults(&self) -> u64
        ensures { result ≡ self.now.plan.faults }
    {
        self.plan.faults()
    }
}

impl Sink for MemorySink {
    ghost written = { λ s. Some s.written };

    ghost faults = { λ s. s.plan.faults };

    fn write(&mut self, piece: &[u8]) -> Result<usize, SinkFault>
        ensures count { IfOk result (λ n. n ≤ length piece.now) }
        ensures adds { IfOk result (λ n. Adds (Some self.old.written) (Some self.new.written) (take n piece.now)) }
        ensures none_taken { IfOk result (λ n. n ≡ 0 → 0 < length piece.now →
            HasRisen self.old.plan.faults self.new.plan.faults) }
        ensures kept { OnErr result (Some self.new.written ≡ Some self.old.written) }
        ensures cause { OnErr result (HasRisen self.old.plan.faults self.new.plan.faults) }
        ensures rises { self.old.plan.faults ≤ self.new.plan.faults }

        // exactly what a call does
        ensures failed { is_to_fail self.old.plan ≡ true →
            (result ≡ Err SinkFault.Failed) × (self.new ≡ record self.old { plan = after_call self.old.plan }) }
        ensures took { is_to_fail self.old.plan ≡ false → let n = write_count self.old (length piece.now) in
            (result ≡ Ok n) × (self.new ≡ after_write self.old piece.now) }
    {
        if self.plan.call() {
            return Err(SinkFault::Failed);
        }
        let count = self
            .most
            .min(piece.len().min(self.capacity - self.bytes.len()));
        self.bytes.extend_from_slice(&piece[..count]).unwrap();
        if count == 0 && !piece.is_empty() {
            self.plan.fault();
        }
        Ok(count)
    }
}
