//! Laws of a load's run. The public functions here do nothing: their contracts are the laws.

ghost use Rattle.std.specs.Prelude.{◌≡◌, ℕ, List};
ghost use Rattle.farm_types.specs.Farm.{Farm};
ghost use Rattle.farm_types.specs.Kept.{KeepsRows};
ghost use Rattle.farm_types.specs.Run.{IsLegal, run_of};
ghost use Rattle.farm_lines.specs.Transcript.{Mark};
ghost use Rattle.farm_load.specs.Loads.{AreMarks, load_run, load_start};

use farm_law::legal_runs_keep_rows;
use line_answers::reports_are_legal;

/// Whatever the outside does, the entries that a load records over a farm are a legal run to the farm that it leaves.
pub fn loads_are_legal()
    ensures legal { (n : ℕ) (f : Farm) (marks : List Mark) → KeepsRows f → AreMarks n (load_start f) marks → IsLegal f (load_run n f marks).recorded }
    ensures farm { (n : ℕ) (f : Farm) (marks : List Mark) → (load_run n f marks).farm ≡ run_of f (load_run n f marks).recorded }
{
    legal_runs_keep_rows();
    reports_are_legal();
}
