//! A source in memory.
ghost use Rattle.std.specs.Prelude.{◌≡◌, ◌<◌, ◌≤◌, ◌++◌, true, false, Some, length, take, drop, IfOk, OnErr, MatchResult};
ghost use Rattle.fault_counts.specs.Counts.{HasRisen};
ghost use Rattle.cue_io.specs.Input.{Takes, IsAtEnd};
ghost use Rattle.fault_counts.specs.Plans.{is_to_fail, new_plan};
ghost use Rattle.cue_io.specs.Memory.{Supply, after_read, read_count};

use crate::source::{Source, SourceFault};
use fault_counts::FaultPlan;
use std::alloc::{AllocError, Global};
use std::marker::Model;

/// A source that has its bytes in memory, and fails at the listed calls.
#[derive(Drop)]
pub struct MemorySource {
    bytes: Vec<u8>,
    at: usize,
    most: usize,
    last: usize,
    plan: FaultPlan,
}

impl Model for MemorySource {
    ghost use Rattle.std.specs.Prelude.{◌≤◌, ◌<◌, drop, vec_len};
    ghost use Rattle.cue_io.specs.Memory.{Supply};

    ghost Value = { Supply };

    ghost view = { λ s. record { left = drop s.at s.bytes.items; most = s.most; last = s.last; plan = s.plan } };

    ghost invariant = { λ s. (s.at ≤ vec_len s.bytes) × (0 < s.most) };
}

impl MemorySource {
    /// A source of these bytes. A read gives at most `most` of them. The calls in `fails` fail, by their number from 1.
    pub fn make(
        alloc: Global,
        bytes: &[u8],
        most: usize,
        fails: &[u64],
    ) -> Result<MemorySource, AllocError>
        requires { 0 < most }
        ensures { IfOk result (λ s. s ≡ record { left = bytes.now; most = most; last = 0; plan = new_plan fails.now }) }
    {
        Ok(MemorySource {
            bytes: Vec::from_slice(alloc, bytes)?,
            at: 0,
            most,
            last: 0,
            plan: FaultPlan::make(alloc, fails)?,
        })
    }

    /// How many calls failed.
    pub fn faults(&self) -> u64
        ensures { result ≡ self.now.plan.faults }
    {
        self.plan.faults()
    }
}

impl Source for MemorySource {
    ghost left = { λ s. Some s.left };

    ghost last = { λ s. s.last };

    ghost faults = { λ s. s.plan.faults };

    fn read(&mut self, into: &mut [u8]) -> Result<usize, SourceFault>
        ensures count { IfOk result (λ n. n ≤ length into.new) }
        ensures takes { IfOk result (λ n. Takes (Some self.old.left) (Some self.new.left) (take n into.new)) }
        ensures end { IfOk result (λ n. n ≡ 0 → 0 < length into.new → IsAtEnd (Some self.new.left)) }
        ensures brought { MatchResult result (λ n. self.new.last ≡ n) (λ _. self.new.last ≡ 0) }
        ensures kept { OnErr result (Some self.new.left ≡ Some self.old.left) }
        ensures cause { OnErr result (HasRisen self.old.plan.faults self.new.plan.faults) }
        ensures rises { self.old.plan.faults ≤ self.new.plan.faults }

        // exactly what a call does
        ensures failed { is_to_fail self.old.plan ≡ true →
            (result ≡ Err SourceFault.Failed) × (into.new ≡ into.old) × (self.new ≡ after_read self.old 0) }
        ensures gave { is_to_fail self.old.plan ≡ false → let n = read_count self.old (length into.old) in
            (result ≡ Ok n) × (into.new ≡ take n self.old.left ++ drop n into.old) × (self.new ≡ after_read self.old n) }
    {
        if self.plan.call() {
            self.last = 0;
            return Err(SourceFault::Failed);
        }
        let count = self.most.min(into.len().min(self.bytes.len() - self.at));
        into[..count].copy_from_slice(&self.bytes[self.at..self.at + count]);
        self.at += count;
        self.last = count;
        Ok(count)
    }
}
