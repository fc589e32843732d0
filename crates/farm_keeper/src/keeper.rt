//! What keeps rows over a stop.

use crate::fault::KeeperFault;
use crate::row::{Batch, Row};
use farm_types::Items;
use std::alloc::Global;

/// A keeper of rows. `holds` says which rows it holds, and `left` which rows a stop at this moment may leave. Both say
/// nothing false whatever the store does; where the store has been true so far, which `tells` says, what is loaded is
/// what it holds, a stop leaves some rows, and rows that it holds alone are among those that a stop may leave. It counts
/// its faults: one more at each call that is Failed, and none at any other. What it can tell of a commit beyond this, by
/// the batch, the answer, and what it was before and after, is `commits`.
pub trait Keeper {
    ghost use Rattle.std.specs.Prelude.{ℕ, IfOk, OnOk, OnErr};
    ghost use Rattle.farm_keeper.specs.Faults.{is_failed};
    ghost use Rattle.farm_keeper.specs.Rows.{Rows, Lists};
    ghost use Rattle.farm_keeper.specs.Keeping.{Committing, Continues, HoldsOnly, HoldsWith, Keeps, LeavesSome, LeavesTaken, MayLeave};

    ghost tells: { Self → Type 0 };

    ghost holds: { Self → Rows → Type 0 };

    ghost left: { Self → Rows → Type 0 };

    ghost faults: { Self → ℕ };

    // one that can tell no more of a commit says nothing here
    ghost commits: { Committing Self };

    /// The rows, by kind and then by id. What is held stays, and a stop leaves nothing that it couldn't leave before.
    fn load(&mut self, alloc: Global) -> Result<Items<Row>, KeeperFault>
        ensures keeper { Continues tells faults self.old self.new (is_failed result) }
        ensures listed { IfOk result (λ list. tells self.new → (rows : Rows) → holds self.old rows → Lists list rows) }
        ensures kept { Keeps (holds self.old) (holds self.new) }
        ensures left { Keeps (left self.new) (left self.old) };

    /// Makes all puts and deletes of the batch, or none. The batch is moved, so that a keeper in memory copies no row.
    /// After an Ok a stop leaves the rows with the batch and nothing else; after an Err it leaves what could be left
    /// before, or the rows with the batch.
    fn commit(&mut self, alloc: Global, batch: Batch) -> Result<(), KeeperFault>
        ensures keeper { Continues tells faults self.old self.new (is_failed result) }
        ensures taken { OnOk result (HoldsWith batch (holds self.old) (holds self.new)) }
        ensures kept { OnErr result (Keeps (holds self.old) (holds self.new)) }
        ensures left_ok { OnOk result (LeavesTaken batch (holds self.old) (left self.new)) }
        ensures left_err { OnErr result (MayLeave batch (holds self.old) (left self.old) (left self.new)) }
        ensures told { commits batch result self.old self.new };

    // A stop leaves some rows, also after a call that failed.
    ghost leaves: { (k : Self) → tells k → LeavesSome (left k) };

    // It may leave the rows that are held, where it is these alone.
    ghost leaves_held: { (k : Self) (rows : Rows) → tells k → HoldsOnly (holds k) rows → left k rows };
}
