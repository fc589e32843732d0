//! Which calls of an object in memory fail.
ghost use Rattle.std.specs.Prelude.{◌≡◌, ◌≤◌, true, IfOk};
ghost use Rattle.fault_counts.specs.Counts.{HasRisen};
ghost use Rattle.fault_counts.specs.Plans.{Plan, after_call, is_to_fail, new_plan, with_call, with_fault};

use std::alloc::{AllocError, Global};
use std::marker::Model;

/// The calls that are to fail, by their number from 1, and how many calls and faults came so far.
#[derive(Drop)]
pub struct FaultPlan {
    fails: Vec<u64>,
    calls: u64,
    faults: u64,
}

impl Model for FaultPlan {
    ghost use Rattle.fault_counts.specs.Plans.{Plan};

    ghost Value = { Plan };

    ghost view = { λ p. record { fails = p.fails.items; calls = p.calls; faults = p.faults } };
}

impl FaultPlan {
    /// The calls in `fails` are to fail, by their number from 1. No call came so far.
    pub fn make(alloc: Global, fails: &[u64]) -> Result<FaultPlan, AllocError>
        ensures { IfOk result (λ plan. plan ≡ new_plan fails.now) }
    {
        Ok(FaultPlan {
            fails: Vec::from_slice(alloc, fails)?,
            calls: 0,
            faults: 0,
        })
    }

    /// How many calls came.
    pub fn calls(&self) -> u64
        ensures { result ≡ self.now.calls }
    {
        self.calls
    }

    /// How many faults came.
    pub fn faults(&self) -> u64
        ensures { result ≡ self.now.faults }
    {
        self.faults
    }

    /// Counts a call, and says whether it is to fail. A fault that comes of it is counted by [`FaultPlan::fault`].
    pub fn count_call(&mut self) -> bool
        ensures fails { result ≡ is_to_fail self.old }
        ensures after { self.new ≡ with_call self.old }
    {
        self.calls = self.calls.saturating_add(1);
        self.fails.contains(&self.calls)
    }

    /// Counts a fault.
    pub fn fault(&mut self)
        ensures after { self.new ≡ with_fault self.old }
        ensures rises { self.old.faults ≤ self.new.faults }
    {
        self.faults = self.faults.saturating_add(1);
    }

    /// Counts a call, with its fault where it is to fail, and says whether it is.
    pub fn call(&mut self) -> bool
        ensures fails { result ≡ is_to_fail self.old }
        ensures after { self.new ≡ after_call self.old }
        ensures cause { result ≡ true → HasRisen self.old.faults self.new.faults }
        ensures rises { self.old.faults ≤ self.new.faults }
    {
        self.calls = self.calls.saturating_add(1);
        let fails = self.fails.contains(&self.calls);
        if fails {
            self.faults = self.faults.saturating_add(1);
        }
        fails
    }
}
