//! The laws of farms' rows in a store: functions that do nothing, whose contracts are the laws.
#![tactic(auto)]

ghost use Rattle.std.specs.Prelude.{◌≡◌, ℕ, List, Some, slice_get};
ghost use Rattle.std.specs.FinMap.{get};
ghost use Rattle.std.specs.List.{All};
ghost use Rattle.farm_types.specs.Farm.{Farm};
ghost use Rattle.farm_types.specs.Kept.{IsKeptFarm};
ghost use Rattle.farm_rows.specs.declared.row_change.RowChange.{RowChange};
ghost use Rattle.farm_rows.specs.Changes.{NamesExactly};
ghost use Rattle.farm_rows.specs.declared.head_row.TheConstants.{ROW_FORMAT};
ghost use Rattle.farm_rows.specs.Rows.{HasRowsIn, rows_in};
ghost use Rattle.farm_keeper.specs.declared.row.Row.{Row};
ghost use Rattle.farm_keeper.specs.Rows.{Lists, NamesEachOnce, after, key_of};
ghost use Rattle.row_codec.specs.RowLaws.{FitsIn};
ghost use Rattle.store_law.specs.Stored.{batch_of, migration, stored, stored_in, stored_rows_in};

/// Each row of a farm, in a format that it has, is one that the types of rows hold, and that the format has.
#[tactic(auto, using(crate::proofs::RowsFit::fits_all))]
pub fn rows_fit()
    ensures { (format : ℕ) (f : Farm) → IsKeptFarm f → HasRowsIn format f → All (FitsIn format) (rows_in format f) }
{}

/// A batch of exactly the rows in which two farms differ makes the rows of the one into those of the other. It names each once.
#[tactic(auto, using(crate::proofs::Batches::named_once, crate::proofs::Batches::rows_after))]
pub fn batches_make_the_rows()
    ensures rows { (f g : Farm) (cs : List RowChange) → IsKeptFarm f → IsKeptFarm g → NamesExactly f g cs → after (batch_of cs) (stored f) ≡ stored g }
    ensures once { (f g : Farm) (cs : List RowChange) → IsKeptFarm f → IsKeptFarm g → NamesExactly f g cs → NamesEachOnce (batch_of cs) }
{}

/// The batch of the rows whose spelling has changed since format 1, the farm's own and each layer's, makes the farm's rows of format 1 those of the
/// format in which rows are written. It names each once, and none that has these bytes in format 1.
#[tactic(auto, using(crate::proofs::Migrations::all_migrated, crate::proofs::Migrations::all_named_once, crate::proofs::Migrations::all_changed))]
pub fn migrations_make_the_rows()
    ensures rows { (f : Farm) → IsKeptFarm f → HasRowsIn 1 f → after (migration f) (stored_in 1 f) ≡ stored_in ROW_FORMAT f }
    ensures once { (f : Farm) → IsKeptFarm f → HasRowsIn 1 f → NamesEachOnce (migration f) }
    ensures changed { (f : Farm) (n : ℕ) (r : Row) → IsKeptFarm f → HasRowsIn 1 f → slice_get (migration f).puts n ≡ Some r
        → get (stored_in 1 f) (key_of r) ≡ Some r.bytes → ⊥ }
{}

/// Farms whose stores have the same rows are one.
#[tactic(auto, using(crate::proofs::Batches::farms_differ))]
pub fn farms_differ_in_their_stores()
    ensures { (f g : Farm) → IsKeptFarm f → IsKeptFarm g → stored f ≡ stored g → f ≡ g }
{}

/// A farm's rows in a format that it has, in order, are the one list of its store in that format.
#[tactic(auto, using(crate::proofs::StoredRows::listed, crate::proofs::StoredRows::only_listed))]
pub fn stores_are_listed_in_order()
    ensures listed { (format : ℕ) (f : Farm) → IsKeptFarm f → HasRowsIn format f → Lists (stored_rows_in format f) (stored_in format f) }
    ensures only { (format : ℕ) (f : Farm) (list : List Row) → IsKeptFarm f → HasRowsIn format f → Lists list (stored_in format f)
        → list ≡ stored_rows_in format f }
{}
