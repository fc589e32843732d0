//! A keeper that notes which of its calls failed.

ghost use Rattle.std.specs.Prelude.{◌≡◌};
ghost use Rattle.fault_counts.specs.Counts.{incremented_if};
ghost use Rattle.farm_keeper.specs.Faults.{is_store_failure};

use farm_keeper::{Batch, Keeper, KeeperFault, Row};
use farm_types::Items;
use std::alloc::Global;

/// A keeper over another one, which notes the numbers of the calls that failed, from 1. One call may be told to fail: it is none of the other's. It tells
/// nothing of its rows, so that it may be opened whatever the other one is.
#[derive(Drop)]
pub struct Watched<K: Keeper> {
    keeper: K,
    calls: Calls,
}

impl<K: Keeper> Watched<K> {
    /// Where there is a number in `failing`, the call of that number fails.
    pub fn over(alloc: Global, keeper: K, failing: Option<u64>) -> Watched<K> {
        Watched {
            keeper,
            calls: Calls {
                failing,
                count: 0,
                faults: 0,
                failed: Vec::new(alloc),
            },
        }
    }

    /// The other keeper, and the numbers of the calls that failed.
    pub fn into_parts(self) -> (K, Vec<u64>) {
        (self.keeper, self.calls.failed)
    }
}

// What is noted of calls.
#[derive(Drop)]
struct Calls {
    failing: Option<u64>,
    count: u64,
    faults: u64,
    failed: Vec<u64>,
}

impl Calls {
    // Counts a call, and says whether it is the one to fail.
    fn is_failing(&mut self) -> bool
        ensures { self.new.faults ≡ self.old.faults }
    {
        self.count = self.count.saturating_add(1);
        self.failing == Some(self.count)
    }

    // Notes that the call failed, and counts a fault of the store. What can't be noted for want of memory is missing.
    fn note(&mut self, fault: KeeperFault) -> KeeperFault
        ensures counted { self.new.faults ≡ incremented_if (is_store_failure fault) self.old.faults }
        ensures same { result ≡ fault }
    {
        let _ = self.failed.push(self.count);
        if matches!(fault, KeeperFault::Failed) {
            self.faults = self.faults.saturating_add(1);
        }
        fault
    }
}

impl<K: Keeper> Keeper for Watched<K> {
    ghost use Rattle.std.specs.Prelude.{⊤};

    ghost tells = { λ _. ⊥ };

    ghost holds = { λ w. K.holds w.keeper };

    ghost left = { λ w. K.left w.keeper };

    ghost faults = { λ w. w.calls.faults };

    ghost commits = { λ batch answer before now. ⊤ };

    ghost leaves = { λ w no. absurd no };

    ghost leaves_held = { λ w rows no. absurd no };

    fn load(&mut self, alloc: Global) -> Result<Items<Row>, KeeperFault> {
        if self.calls.is_failing() {
            return Err(self.calls.note(KeeperFault::Failed));
        }
        match self.keeper.load(alloc) {
            Ok(rows) => Ok(rows),
            Err(fault) => Err(self.calls.note(fault)),
        }
    }

    fn commit(&mut self, alloc: Global, batch: Batch) -> Result<(), KeeperFault> {
        if self.calls.is_failing() {
            return Err(self.calls.note(KeeperFault::Failed));
        }
        match self.keeper.commit(alloc, batch) {
            Ok(()) => Ok(()),
            Err(fault) => Err(self.calls.note(fault)),
        }
    }
}
