//! A keeper in memory.
ghost use Rattle.std.specs.Prelude.{◌≡◌, ⊤, IfOk, OnOk, OnErr};
ghost use Rattle.farm_keeper.specs.Faults.{is_failed};
ghost use Rattle.farm_keeper.specs.Rows.{Rows, Lists};
ghost use Rattle.farm_keeper.specs.Keeping.{Continues, HoldsWith, Keeps, LeavesTaken, MayLeave, MayRemain};
ghost use Rattle.farm_keeper.specs.Memory.{Commits, Kept, Loads, committed, new_keeper, refused_with};

use crate::fault::KeeperFault;
use crate::keeper::Keeper;
use crate::row::{Batch, Row};
use crate::row_table::{RowTable, delete_rows, list_rows, put_rows};
use farm_types::Items;
use fault_counts::FaultPlan;
use indexmap::IndexMap;
use std::alloc::{AllocError, Global};
use std::marker::Model;

/// A keeper that has its rows in memory, and fails at the listed calls. Beside its rows it keeps the batches that it
/// refused by such a failure since the last Ok of a commit: a stop may leave the rows with one of them. A batch is
/// moved, its bytes with it. What a commit costs goes by its batch, and not by the number of rows; a load sorts them.
#[derive(Drop)]
pub struct MemoryKeeper {
    rows: RowTable,
    refused: Vec<Batch>,
    plan: FaultPlan,
}

impl Model for MemoryKeeper {
    ghost use Rattle.farm_keeper.specs.Codes.{kept_code};
    ghost use Rattle.farm_keeper.specs.Memory.{Kept};
    ghost use Rattle.farm_keeper.specs.Table.{rows_in};

    ghost Value = { Kept };

    ghost coded = { kept_code };

    ghost view = { λ k. record { rows = rows_in k.rows.entries; refused = k.refused.items; plan = k.plan } };
}

impl MemoryKeeper {
    /// A keeper of no rows. The calls in `fails` fail, by their number from 1, loads and commits together.
    pub fn make(alloc: Global, fails: &[u64]) -> Result<MemoryKeeper, AllocError>
        ensures { IfOk result (λ keeper. keeper ≡ new_keeper fails.now) }
    {
        Ok(MemoryKeeper {
            rows: IndexMap::new(alloc),
            refused: Vec::new(alloc),
            plan: FaultPlan::make(alloc, fails)?,
        })
    }

    /// The batches that were refused since the last Ok of a commit, the first one first.
    pub fn refused(&self) -> &[Batch]
        ensures { result.now ≡ self.now.refused }
    {
        &self.refused
    }

    /// How many calls there were.
    pub fn calls(&self) -> u64
        ensures { result ≡ self.now.plan.calls }
    {
        self.plan.calls()
    }

    /// How many calls failed.
    pub fn faults(&self) -> u64
        ensures { result ≡ self.now.plan.faults }
    {
        self.plan.faults()
    }

    // Counts a fault, and keeps the batch that it refuses.
    fn refuse(&mut self, batch: Batch) -> Result<(), AllocError>
        ensures ok { OnOk result (self.new ≡ refused_with batch self.old) }
        ensures err { OnErr result (self.new ≡ self.old) }
    {
        self.refused.push(batch)?;
        self.plan.fault();
        Ok(())
    }

    // Takes all memory first, then moves the rows that are put into the table, and makes the deletes.
    fn take(&mut self, batch: Batch) -> Result<(), AllocError>
        ensures ok { OnOk result (self.new ≡ committed batch self.old) }
        ensures err { OnErr result (self.new ≡ self.old) }
    {
        let Batch { puts, deletes } = batch;
        self.rows.reserve(puts.len())?;
        put_rows(&mut self.rows, puts.into_vec());
        delete_rows(&mut self.rows, deletes.as_slice());
        self.refused.clear();
        Ok(())
    }
}

impl Keeper for MemoryKeeper {
    ghost tells = { λ _. ⊤ };

    ghost holds = { λ k rows. rows ≡ k.rows };

    ghost left = { λ k. MayRemain k.rows k.refused };

    ghost faults = { λ k. k.plan.faults };

    ghost commits = { λ batch answer before now. Commits batch answer before now };

    ghost use Rattle.farm_keeper.specs.Remains.{leaves, leaves_held};

    ghost leaves = { λ k tells. leaves k };

    ghost leaves_held = { λ k rows tells only. leaves_held k rows only };

    fn load(&mut self, alloc: Global) -> Result<Items<Row>, KeeperFault>
        ensures keeper { Continues (λ (_ : Kept). ⊤) (λ (k : Kept). k.plan.faults) self.old self.new (is_failed result) }
        ensures listed { IfOk result (λ list. ⊤ → (rows : Rows) → rows ≡ self.old.rows → Lists list rows) }
        ensures kept { Keeps (λ rows. rows ≡ self.old.rows) (λ rows. rows ≡ self.new.rows) }
        ensures left { Keeps (MayRemain self.new.rows self.new.refused) (MayRemain self.old.rows self.old.refused) }

        // exactly what a call answers and leaves
        ensures exact { Loads self.old result self.new }
    {
        if self.plan.count_call() {
            self.plan.fault();
            return Err(KeeperFault::Failed);
        }
        Ok(list_rows(alloc, &mut self.rows)?)
    }

    fn commit(&mut self, _: Global, batch: Batch) -> Result<(), KeeperFault>
        ensures keeper { Continues (λ (_ : Kept). ⊤) (λ (k : Kept). k.plan.faults) self.old self.new (is_failed result) }
        ensures taken { OnOk result (HoldsWith batch (λ rows. rows ≡ self.old.rows) (λ rows. rows ≡ self.new.rows)) }
        ensures kept { OnErr result (Keeps (λ rows. rows ≡ self.old.rows) (λ rows. rows ≡ self.new.rows)) }
        ensures left_ok { OnOk result (LeavesTaken batch (λ rows. rows ≡ self.old.rows) (MayRemain self.new.rows self.new.refused)) }
        ensures left_err { OnErr result (MayLeave batch (λ rows. rows ≡ self.old.rows)
            (MayRemain self.old.rows self.old.refused) (MayRemain self.new.rows self.new.refused)) }

        // exactly what a call answers and leaves
        ensures told { Commits batch result self.old self.new }
    {
        if self.plan.count_call() {
            self.refuse(batch)?;
            return Err(KeeperFault::Failed);
        }
        self.take(batch)?;
        Ok(())
    }
}
