//! The law of turns.

ghost use Rattle.std.specs.Prelude.{List};
ghost use Rattle.farm_types.specs.declared.entry.Entry.{Entry};
ghost use Rattle.farm_types.specs.Farm.{Farm};
ghost use Rattle.farm_types.specs.Kept.{IsKeptFarm};
ghost use Rattle.farm_types.specs.Run.{IsLegalStep, run_of};
ghost use Rattle.farm_types.specs.Step.{after};
ghost use Rattle.farm_rows.specs.declared.row_change.RowChange.{RowChange};
ghost use Rattle.farm_rows.specs.Changes.{NamesExactly};
ghost use Rattle.booking_rule.specs.declared.desk.Desk.{Desk};
ghost use Rattle.booking_rule.specs.declared.opening.Opening.{Opening};
ghost use Rattle.booking_rule.specs.Link.{IsDone, farm_before, farm_of};
ghost use Rattle.farm_stands.specs.declared.turn.Turn.{Turn};
ghost use Rattle.farm_stands.specs.Turns.{AllTurned, Covers, turns_of};

use depend_law::legal_runs_keep_farms;
use entry_law::{bursts_stay, hosts_stay, stands_stay};

/// The turns of exactly the rows in which the farm before a legal entry and the one after it differ cover the entry.
pub fn turns_cover()
    ensures { (f : Farm) (e : Entry) (cs : List RowChange) → IsKeptFarm f → IsLegalStep f e → NamesExactly f (after f e) cs
        → Covers f (after f e) (turns_of f cs) }
{
    legal_runs_keep_farms();
    stands_stay();
    hosts_stay();
    bursts_stay();
}

/// Once the words of all turns that cover the journal's last entry were changed, but for those of which both farms say the same, nothing is left to do.
pub fn turns_finish()
    ensures { (o : Opening) (log : List Entry) (d : Desk) (ts : List Turn) → Covers (farm_before o d.before) (run_of (farm_of o) log) ts
        → AllTurned (run_of (farm_of o) log) d ts → IsDone o log d }
{}
