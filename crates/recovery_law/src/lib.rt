//! The laws of recovery: functions that do nothing, whose contracts are the laws.
#![tactic(auto)]

ghost use Rattle.std.specs.Prelude.{◌≡◌, ℕ, Ok, List};
ghost use Rattle.farm_types.specs.Farm.{Farm};
ghost use Rattle.farm_types.specs.Kept.{IsKeptFarm};
ghost use Rattle.farm_rows.specs.declared.farm_row.FarmRow.{FarmRow};
ghost use Rattle.farm_rows.specs.Recovery.{Said, farm_said};
ghost use Rattle.farm_rows.specs.Rows.{HasRowsIn, rows_in};

/// Of each farm that keeps what every farm keeps, the rows in a format that it has say that farm, in that format: in the
/// one in which rows are written, and, where an entry made the farm and it has no limits, in format 1.
pub fn rows_say_their_farm()
    ensures { (format : ℕ) (f : Farm) → IsKeptFarm f → HasRowsIn format f → farm_said (rows_in format f) ≡ Ok (record { farm = f; format = format }) }
{}

/// Rows that say a farm are that farm's in their format, which it has, and it keeps what every farm keeps.
pub fn farms_said_are_kept()
    ensures rows { (rows : List FarmRow) (s : Said) → farm_said rows ≡ Ok s → rows_in s.format s.farm ≡ rows }
    ensures format { (rows : List FarmRow) (s : Said) → farm_said rows ≡ Ok s → HasRowsIn s.format s.farm }
    ensures kept { (rows : List FarmRow) (s : Said) → farm_said rows ≡ Ok s → IsKeptFarm s.farm }
{}
